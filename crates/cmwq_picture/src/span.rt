//! Which ticks of a run are drawn.
ghost use Rattle.cmwq_picture.specs.Folding.{is_open};
ghost use Rattle.cmwq_picture.specs.Picture.{from_time, is_before, is_drawn};
ghost use Rattle.std.specs.Prelude.{◌≡◌};

use cmwq_drawing::Span;

/// The most columns of a picture unless both ends of its span are given.
pub const MAX_COLUMNS: usize = 500;

/// The most ticks in which nothing changes that aren't folded.
pub const MAX_UNFOLDED: u32 = 20;

/// The time from which on ticks are drawn, where this end of the span is given or not.
pub(crate) fn from_time(from: Option<u64>) -> u64
    ensures { result ≡ from_time from }
{
    from.unwrap_or(0)
}

/// Whether the tick that begins at this time is drawn.
pub(crate) fn is_drawn(span: Span, time: u64) -> bool
    ensures { result ≡ is_drawn span time }
{
    from_time(span.from) <= time && ends_after(span, time)
}

fn ends_after(span: Span, time: u64) -> bool
    ensures { result ≡ is_before time span.to }
{
    match span.to {
        Some(to) => time < to,
        None => true,
    }
}

/// Whether one of its ends isn't given.
pub(crate) fn is_open(span: Span) -> bool
    ensures { result ≡ is_open span }
{
    span.from.is_none() || span.to.is_none()
}
