//! Why a line of a text is refused.

use cmwq_types::Fault;
use thiserror::Error;

/// Why no scenario's text begins with the lines up to this one. The order of the reasons is this
/// project's own.
#[derive(Clone, Copy, Debug, PartialEq, Eq, Error)]
pub enum Why {
    /// The line's bytes, comment included, aren't UTF-8.
    #[error("BadUtf8")]
    BadUtf8,
    /// The line begins with no word that a line begins with, or `max` or a flag must stand in the
    /// word's place.
    #[error("BadWord")]
    BadWord,
    /// A name must stand in the word's place.
    #[error("BadName")]
    BadName,
    /// A number must stand in the word's place: `0`, or 1 to 10 digits of which the first isn't `0`.
    #[error("BadNumber")]
    BadNumber,
    /// The line ends too early; or the text does, at the number of its last line plus one.
    #[error("MissingWord")]
    MissingWord,
    /// A word stands after the line's last.
    #[error("ExtraWord")]
    ExtraWord,
    /// The line can't stand here, or it is the `body` of a work that isn't the next one.
    #[error("Misplaced")]
    Misplaced,
    /// The text has more than 4,194,304 bytes.
    #[error("TooLong")]
    TooLong,
    /// The line gives the scenario this fault; at the text's end, an open body has no `finish`.
    #[error("{0}")]
    Fault(Fault),
}
