//! Lines that are comments and nothing else.
ghost use Rattle.cmwq_asm.specs.CommentLines.{begins_comment};
ghost use Rattle.cmwq_asm.specs.Texts.{LeadsOn};
ghost use Rattle.cmwq_grammar.specs.Cutting.{lines_of};
ghost use Rattle.cmwq_grammar.specs.LineReasons.{judge};
ghost use Rattle.cmwq_grammar.specs.Stages.{Stage};
ghost use Rattle.cmwq_types.specs.declared.limits.TheConstants.{MAX_TEXT};
ghost use Rattle.std.specs.Prelude.{◌≡◌, ◌<◌, ◌≤◌, ◌∷◌, IfSome, IsTrue, Ok, length};
ghost use Rattle.std.specs.Str.{is_utf8};

use cmwq_scan::next_line;

/// What is left of the text behind the comments at its front, each of which is a line that begins with `#`, and how many these are. They
/// tell nothing at any stage.
pub(crate) fn skip_comments(text: &[u8]) -> (&[u8], u32)
    requires text { IsTrue (is_utf8 text.now) }
    requires few { length text.now ≤ MAX_TEXT }
    ensures lines { (stage : Stage) → LeadsOn text.now stage result.0.now result.1 stage }
    ensures text { IsTrue (is_utf8 result.0.now) }
{
    let mut rest = text;
    let mut count = 0;
    while let Some((_comment, behind)) = next_comment(rest) {
        rest = behind;
        count += 1;
    }
    (rest, count)
}

/// The first line of the text, if it is a comment, and what comes after its line feed.
fn next_comment(text: &[u8]) -> Option<(&[u8], &[u8])>
    requires { IsTrue (is_utf8 text.now) }
    ensures comment { IfSome result (λ line. (stage : Stage) → judge stage line.0.now ≡ Ok stage) }
    ensures lines { IfSome result (λ line. lines_of text.now ≡ line.0.now ∷ lines_of line.1.now) }
    ensures ends { IfSome result (λ line. length line.1.now < length text.now) }
    ensures text { IfSome result (λ line. IsTrue (is_utf8 line.1.now)) }
{
    if !begins_comment(text) {
        return None;
    }
    next_line(text)
}

/// Whether the text begins with `#`.
fn begins_comment(text: &[u8]) -> bool
    ensures { result ≡ begins_comment text.now }
{
    match text {
        [b'#', ..] => true,
        _ => false,
    }
}
