//! What the actor did, in an SVG picture: a line for each, with its words behind its mark.
ghost use Rattle.cmwq_svg.specs.Svg.{act_end, act_svg, acts_end, acts_svg, column_of_time};
ghost use Rattle.std.specs.Prelude.{◌≡◌, ◌<◌, ◌^◌, ◌++◌, IfOk, OnOk, string_bytes};

use crate::frame::Frame;
use crate::layout::y_of;
use crate::shapes::{Area, PlacedText, Rectangle};
use cmwq_picture::Act;
use cmwq_render::act_words;
use cmwq_types::NoMemory;
use std::alloc::Global;

impl Frame<'_> {
    /// Writes a line for each thing that the actor did, from this line on.
    pub(crate) fn push_acts(
        &self,
        alloc: Global,
        text: &mut String,
        first: u128,
        acts: &[Act],
    ) -> Result<(), NoMemory>
        requires { first < 2 ^ 70 }
        ensures { OnOk result (string_bytes text.new ≡ string_bytes text.old ++ acts_svg self.now.scenario.now self.now.edges.now self.now.grid first acts.now) }
    {
        for (number, act) in acts.iter().enumerate() {
            self.push_act(alloc, text, first + number as u128, *act)?;
        }
        Ok(())
    }

    /// Writes the mark of something that the actor did, and its words.
    fn push_act(&self, alloc: Global, text: &mut String, at: u128, act: Act) -> Result<(), NoMemory>
        requires { at < 2 ^ 71 }
        ensures { OnOk result (string_bytes text.new ≡ string_bytes text.old ++ act_svg self.now.scenario.now self.now.edges.now self.now.grid at act) }
    {
        let words = act_words(alloc, self.scenario, act)?;
        let time = act.time;
        let title = format!(in alloc; "{words}, at {time}")?;
        let x = self.grid.x_of(column_of_time(self.edges, time));
        let y = y_of(at);
        let rectangle = Rectangle {
            class: "acts",
            area: Area {
                x,
                y: y + 3,
                width: u128::from(self.grid.scale),
                height: 14,
            },
            title: title.as_str(),
        };
        let words = PlacedText {
            class: "act",
            x: x + u128::from(self.grid.scale) + 4,
            y: y + 14,
            text: words.as_str(),
        };
        write!(text, "{rectangle}{words}")?;
        Ok(())
    }

    /// Where the words end that reach furthest to the right.
    pub(crate) fn acts_end(&self, alloc: Global, acts: &[Act]) -> Result<u128, NoMemory>
        ensures end { IfOk result (λ end. end ≡ acts_end self.now.scenario.now self.now.edges.now self.now.grid acts.now) }
        ensures small { IfOk result (λ end. end < 2 ^ 110) }
    {
        let mut end = 0;
        for act in acts {
            end = self.act_end(alloc, *act)?.max(end);
        }
        Ok(end)
    }

    /// Where the words end of something that the actor did.
    fn act_end(&self, alloc: Global, act: Act) -> Result<u128, NoMemory>
        ensures end { IfOk result (λ end. end ≡ act_end self.now.scenario.now self.now.edges.now self.now.grid act) }
        ensures small { IfOk result (λ end. end < 2 ^ 110) }
    {
        let words = act_words(alloc, self.scenario, act)?;
        let x = self.grid.x_of(column_of_time(self.edges, act.time));
        Ok(x + u128::from(self.grid.scale) + 4 + 8 * words.len() as u128)
    }
}

/// The number of the first column that doesn't begin before a time.
fn column_of_time(edges: &[u64], time: u64) -> usize
    ensures { result ≡ column_of_time edges.now time }
{
    let mut column = 0;
    for edge in edges {
        if *edge >= time {
            return column;
        }
        column += 1;
    }
    column
}
