//! The rectangles of a row.
ghost use Rattle.cmwq_svg.specs.Bars.{bar_begun, goes_on, grown};
ghost use Rattle.std.specs.Prelude.{◌≡◌, ◌+◌, ◌<◌, ◌^◌};

use cmwq_picture::Cell;

/// One rectangle of a row: over the columns from `from` on, before `to`.
#[derive(Clone, Copy)]
pub(crate) struct Bar {
    pub(crate) from: usize,
    pub(crate) to: usize,
    /// What it shows.
    pub(crate) cell: Cell,
}

/// Whether the rectangle goes on over the cell that is next.
pub(crate) fn goes_on(last: Option<Bar>, cell: Cell) -> bool
    ensures { result ≡ goes_on last cell }
{
    match last {
        Some(bar) => bar.cell == cell,
        None => false,
    }
}

/// The rectangle, up to this column.
pub(crate) fn grown(last: Option<Bar>, to: usize) -> Option<Bar>
    ensures { result ≡ grown last to }
{
    match last {
        Some(bar) => Some(Bar { to, ..bar }),
        None => None,
    }
}

/// The rectangle that begins with the cell of this column: an empty one has none.
pub(crate) fn bar_begun(cell: Cell, at: usize) -> Option<Bar>
    requires { at + 1 < 2 ^ 64 }
    ensures { result ≡ bar_begun cell at }
{
    match cell {
        Cell::Empty => None,
        Cell::Does(_) | Cell::Burner(_) | Cell::Acts | Cell::Lasts | Cell::Armed(_) => Some(Bar {
            from: at,
            to: at + 1,
            cell,
        }),
    }
}
