//! The legend of an SVG picture, and the bands over its folded columns.
ghost use Rattle.cmwq_svg.specs.Svg.{gap_keys, gap_svg, key_svg, legend_svg};
ghost use Rattle.std.specs.List.{flat_map};
ghost use Rattle.std.specs.Prelude.{◌≡◌, ◌≤◌, ◌<◌, ◌^◌, ◌++◌, OnOk, string_bytes};

use crate::frame::Frame;
use crate::layout::y_of;
use crate::shapes::{Area, PlacedText, Rectangle, class_of};
use cmwq_picture::Cell;
use cmwq_render::{Gap, meaning};
use cmwq_types::NoMemory;
use std::alloc::Global;

impl Frame<'_> {
    /// Writes a band over each folded column, down to here.
    pub(crate) fn push_gaps(
        &self,
        alloc: Global,
        text: &mut String,
        bottom: u128,
        gaps: &[Gap],
    ) -> Result<(), NoMemory>
        requires { 22 ≤ bottom }
        ensures { OnOk result (string_bytes text.new ≡ string_bytes text.old ++ flat_map (gap_svg self.now.grid bottom) gaps.now) }
    {
        for gap in gaps {
            let title = gap.words().to_string(alloc)?;
            let band = Rectangle {
                class: "gap",
                area: Area {
                    x: self.grid.x_of(gap.column),
                    y: 22,
                    width: u128::from(self.grid.scale),
                    height: bottom - 22,
                },
                title: title.as_str(),
            };
            write!(text, "{band}")?;
        }
        Ok(())
    }

    /// Writes a line for each of these cells, from this line on.
    pub(crate) fn push_legend(
        &self,
        text: &mut String,
        first: u128,
        cells: &[Cell],
    ) -> Result<(), NoMemory>
        requires { first < 2 ^ 70 }
        ensures { OnOk result (string_bytes text.new ≡ string_bytes text.old ++ legend_svg self.now.grid first cells.now) }
    {
        for (number, cell) in cells.iter().enumerate() {
            let at = first + number as u128;
            self.push_key(text, at, class_of(*cell), meaning(*cell))?;
        }
        Ok(())
    }

    /// Writes a line for each folded column, from this line on.
    pub(crate) fn push_gap_keys(
        &self,
        alloc: Global,
        text: &mut String,
        first: u128,
        gaps: &[Gap],
    ) -> Result<(), NoMemory>
        requires { first < 2 ^ 70 }
        ensures { OnOk result (string_bytes text.new ≡ string_bytes text.old ++ gap_keys self.now.grid first gaps.now) }
    {
        for (number, gap) in gaps.iter().enumerate() {
            let words = gap.words().to_string(alloc)?;
            let at = first + number as u128;
            self.push_key(text, at, "gap", words.as_str())?;
        }
        Ok(())
    }

    /// Writes a line of the legend.
    fn push_key(
        &self,
        text: &mut String,
        at: u128,
        class: &'static str,
        meaning: &str,
    ) -> Result<(), NoMemory>
        requires { at < 2 ^ 71 }
        ensures { OnOk result (string_bytes text.new ≡ string_bytes text.old ++ key_svg self.now.grid at class.now meaning.now) }
    {
        let x = self.grid.left_edge();
        let y = y_of(at);
        let rectangle = Rectangle {
            class,
            area: Area {
                x,
                y: y + 11,
                width: 20,
                height: 14,
            },
            title: meaning,
        };
        let words = PlacedText {
            class: "key",
            x: x + 28,
            y: y + 22,
            text: meaning,
        };
        write!(text, "{rectangle}{words}")?;
        Ok(())
    }
}
