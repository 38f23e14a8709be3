//! What a picture is to show.
ghost use Rattle.cmwq_picture.specs.ExtentContents.{picked_works};
ghost use Rattle.cmwq_picture.specs.Picture.{is_picked};
ghost use Rattle.std.specs.List.{list_any};
ghost use Rattle.std.specs.Prelude.{◌≡◌, ◌==◌};

use cmwq_drawing::Span;
use cmwq_types::WorkId;

/// What a picture is to show.
#[derive(Clone, Copy)]
pub struct Extent<'a> {
    /// Which ticks.
    pub span: Span,
    /// Whether long stretches in which nothing changes are folded, though there is room for each tick.
    pub fold: bool,
    /// The works that have rows; all where they aren't given.
    pub works: Option<&'a [WorkId]>,
}

/// Whether the work has rows, where these are the works that have.
pub(crate) fn is_picked(works: Option<&[WorkId]>, w: usize) -> bool
    ensures { result ≡ is_picked (picked_works works.entry) w }
{
    match works {
        Some(works) => is_among(works, w),
        None => true,
    }
}

/// Whether the work is one of these.
fn is_among(works: &[WorkId], w: usize) -> bool
    ensures { result ≡ list_any (λ work. work.0 == w) works.now }
{
    works.iter().any(|work| work.0 as usize == w)
}
