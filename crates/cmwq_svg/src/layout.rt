//! Where the parts of a picture stand, in pixels from its upper left corner. Numbers of 128 bits have room for every picture.
ghost use Rattle.cmwq_svg.specs.Layout.{full_height, full_width, is_large, wide_step, y_of};
ghost use Rattle.std.specs.Prelude.{◌≡◌, ◌<◌, ◌≤◌, ◌^◌};

/// How labels and columns stand.
#[derive(Clone, Copy)]
pub(crate) struct Grid {
    /// How many letters the longest label has.
    pub(crate) letters: usize,
    /// How wide a column is, in pixels.
    pub(crate) scale: u32,
}

impl Grid {
    ghost use Rattle.cmwq_svg.specs.Layout.{left_edge, x_of};
    ghost use Rattle.std.specs.Prelude.{◌<◌, ◌^◌, ◌+◌, ◌*◌};

    /// The left edge of the columns.
    pub(crate) fn left_edge(self) -> u128
        ensures left_edge { result ≡ left_edge self }
        ensures small { result < 2 ^ 68 }
    {
        8 * self.letters as u128 + 16
    }

    /// The left edge of a column.
    pub(crate) fn x_of(self, column: usize) -> u128
        ensures x { result ≡ x_of self column }
        ensures small { result < 2 ^ 104 }
    {
        self.left_edge() + self.wide(column)
    }

    /// How wide so many columns are.
    pub(crate) fn wide(self, columns: usize) -> u128
        ensures wide { result ≡ self.scale * columns }
        ensures small { result < 2 ^ 100 }
    {
        u128::from(self.scale) * columns as u128
    }

    /// Where labels end, before the columns.
    pub(crate) fn label_edge(self) -> u128
        ensures edge { result ≡ 8 * self.letters + 8 }
        ensures small { result < 2 ^ 68 }
    {
        8 * self.letters as u128 + 8
    }
}

/// The upper edge of a row.
pub(crate) fn y_of(row: u128) -> u128
    requires { row < 2 ^ 100 }
    ensures y { result ≡ y_of row }
    ensures small { result < 2 ^ 105 }
{
    28 + 20 * row
}

/// How many columns stand between two times where, at 10 pixels a column, these would.
pub(crate) fn wide_step(scale: u32, step: usize) -> usize
    requires some { 0 < scale }
    requires few { step ≤ 20 }
    ensures { result ≡ wide_step scale step }
{
    step * ((scale as usize + 9) / scale as usize)
}

/// How wide a picture of so many columns is, with words that end here.
pub(crate) fn full_width(grid: Grid, columns: usize, end: u128) -> u128
    requires { end < 2 ^ 110 }
    ensures width { result ≡ full_width grid columns end }
    ensures small { result < 2 ^ 111 }
{
    grid.x_of(columns).max(grid.left_edge() + 400).max(end) + 16
}

/// How high a picture of so many rows is, with so many lines of its legend.
pub(crate) fn full_height(rows: u128, lines: u128) -> u128
    requires rows { rows < 2 ^ 70 }
    requires lines { lines < 2 ^ 70 }
    ensures { result ≡ full_height rows lines }
{
    y_of(rows + 1 + lines) + 20
}

/// Whether a picture is so large that its labels stand at the right too.
pub(crate) fn is_large(width: u128, height: u128) -> bool
    ensures { result ≡ is_large width height }
{
    width > 1200 || height > 1200
}
