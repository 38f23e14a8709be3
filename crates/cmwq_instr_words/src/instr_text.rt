//! An instruction in the words of the listing.
ghost use Rattle.cmwq_types.specs.Listing.{instr_words, operand_words};
ghost use Rattle.std.specs.List.{flat_map, join_with_byte};
ghost use Rattle.std.specs.Prelude.{◌∷◌, Some};

use cmwq_types::{Fields, Instr, Scenario, Shape, fields_of, shape_of, word_of};
use std::fmt;

/// An instruction as the listing of the scenario has it, without `* N` and a line's end.
#[derive(Clone, Copy)]
pub struct InstrWords<'a> {
    /// The scenario whose names it has.
    pub scenario: &'a Scenario,
    /// The instruction.
    pub instr: Instr,
}

impl fmt::Display for InstrWords<'_> {
    ghost output = { λ words. Some (join_with_byte 32 (instr_words words.scenario.now words.instr)) };

    fn fmt<W: fmt::Write>(&self, f: &mut fmt::Formatter<W>) -> fmt::Result {
        let word = word_of(self.instr);
        let verb = word.as_str();
        let operands = Operands {
            scenario: self.scenario,
            shape: shape_of(word),
            fields: fields_of(self.instr),
        };
        write!(f, "{verb}{operands}")
    }
}

/// The operands of a shape as the listing of the scenario has them, each behind a space.
#[derive(Clone, Copy)]
struct Operands<'a> {
    scenario: &'a Scenario,
    shape: Shape,
    fields: Fields,
}

impl fmt::Display for Operands<'_> {
    ghost output = { λ operands. Some (flat_map (λ word. 32 ∷ word) (operand_words operands.scenario.now operands.shape operands.fields)) };

    fn fmt<W: fmt::Write>(&self, f: &mut fmt::Formatter<W>) -> fmt::Result {
        let scenario = self.scenario;
        let Fields { cpu, id, number } = self.fields;
        match self.shape {
            Shape::Alone => f.write_str(""),
            Shape::Ticks | Shape::Time => write!(f, " {number}"),
            Shape::Work => write!(f, " {}", scenario.work_name(id as usize)),
            Shape::WorkCpu => write!(f, " {} {cpu}", scenario.work_name(id as usize)),
            Shape::WorkTicks => write!(f, " {} {number}", scenario.work_name(id as usize)),
            Shape::WorkCpuTicks => {
                write!(f, " {} {cpu} {number}", scenario.work_name(id as usize))
            }
            Shape::Queue => write!(f, " {}", scenario.queue_name(id as usize)),
            Shape::QueueNumber => write!(f, " {} {number}", scenario.queue_name(id as usize)),
            Shape::Pool => write!(f, " {cpu}"),
            Shape::Flush => write!(f, " {id}"),
        }
    }
}
