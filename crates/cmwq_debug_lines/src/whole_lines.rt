//! Whole lines of what has come so far.
ghost use Rattle.std.specs.List.{All};
ghost use Rattle.std.specs.Prelude.{◌≡◌, ◌+◌, ◌<◌, ◌++◌, ◌∷◌, ◌==◌, [], IfNone, IfSome, false, length, take};

use memchr::memchr;

/// How long the first line is that ends in a line feed, which isn't counted, if there is one.
pub fn line_length(text: &[u8]) -> Option<usize>
    ensures within { IfSome result (λ n. n < length text.now) }
    ensures whole { IfSome result (λ n. take (n + 1) text.now ≡ take n text.now ++ 10 ∷ []) }
    ensures none { IfNone result (All (λ byte. (byte == 10) ≡ false) text.now) }
    ensures line { IfSome result (λ n. All (λ byte. (byte == 10) ≡ false) (take n text.now)) }
{
    memchr(b'\n', text)
}
