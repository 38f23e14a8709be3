//! How the bytes of a text are shown.
ghost use Rattle.cmwq_verdict.specs.Looks.{blank, seen};
ghost use Rattle.cmwq_verdict.specs.Shown.{shown_as};
ghost use Rattle.cmwq_verdict.specs.Verdicts.{visible};
ghost use Rattle.std.specs.Prelude.{◌≡◌, ◌++◌, OnOk, map};

use cmwq_types::NoMemory;

/// How a byte is shown.
#[derive(Clone, Copy)]
pub enum Shown {
    /// In a word: what isn't visible is `?`.
    Visible,
    /// In a line: a tab stays one, and a carriage return is a blank.
    Seen,
    /// Below a line: a blank as wide.
    Blank,
}

impl Shown {
    /// The byte as it is shown.
    fn byte(self, byte: u8) -> u8
        ensures { result ≡ shown_as self byte }
    {
        match self {
            Shown::Visible => visible(byte),
            Shown::Seen => seen(byte),
            Shown::Blank => blank(byte),
        }
    }
}

/// Writes the bytes as they are shown.
pub(crate) fn push_shown_as(told: &mut Vec<u8>, shown: Shown, bytes: &[u8]) -> Result<(), NoMemory>
    ensures { OnOk result (told.new.items ≡ told.old.items ++ map (shown_as shown) bytes.now) }
{
    for byte in bytes {
        told.push(shown.byte(*byte))?;
    }
    Ok(())
}

/// The byte, or `?` where it isn't a visible character of ASCII.
fn visible(byte: u8) -> u8
    ensures { result ≡ visible byte }
{
    if byte.is_ascii_graphic() { byte } else { b'?' }
}

/// The byte, or `?` where it can't be seen; a tab stays one, and a carriage return is a blank.
fn seen(byte: u8) -> u8
    ensures { result ≡ seen byte }
{
    match byte {
        b'\t' | 32..=126 => byte,
        b'\r' => b' ',
        _ => b'?',
    }
}

/// A blank as wide as the byte.
fn blank(byte: u8) -> u8
    ensures { result ≡ blank byte }
{
    if byte == b'\t' { byte } else { b' ' }
}
