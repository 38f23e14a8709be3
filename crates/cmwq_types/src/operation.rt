//! An operation of a body as its word and its fields, as an instruction is.
ghost use Rattle.cmwq_types.specs.Operations.{first_op_word, op_fields_of, op_shape_of, op_spelling, op_with, op_word_of, op_word_read, op_words};
ghost use Rattle.cmwq_types.specs.Values.{IsOp};
ghost use Rattle.std.specs.Prelude.{◌≡◌};
ghost use Rattle.std.specs.Str.{bytes_eq};

use crate::fields::{Fields, Shape};
use crate::instr::WorkId;
use crate::scenario::Op;

/// The word that an operation begins with. `op_spelling` of the specs is the table of them.
#[derive(Clone, Copy, PartialEq, Eq)]
pub enum OpWord {
    Burn,
    Sleep,
    Queue,
    Finish,
    Delay,
    Mod,
    Cancel,
}

const OP_WORDS: [OpWord; 7] = [
    OpWord::Burn,
    OpWord::Sleep,
    OpWord::Queue,
    OpWord::Finish,
    OpWord::Delay,
    OpWord::Mod,
    OpWord::Cancel,
];

impl OpWord {
    /// Returns the word that is spelled like this, if there is one.
    pub fn read(word: &[u8]) -> Option<OpWord>
        ensures { result ≡ op_word_read word.now }
    {
        first_op_word(&OP_WORDS, word)
    }

    /// Returns all of them, in the order of the table.
    pub fn all() -> &'static [OpWord]
        ensures { result.now ≡ op_words }
    {
        &OP_WORDS
    }

    /// Returns whether it is spelled like this.
    fn is_spelled(self, word: &[u8]) -> bool
        ensures { result ≡ bytes_eq word.now (op_spelling self) }
    {
        word == self.as_bytes()
    }

    /// Returns its spelling, as bytes.
    pub fn as_bytes(self) -> &'static [u8]
        ensures { result.now ≡ op_spelling self }
    {
        self.as_str().as_bytes()
    }

    /// Returns its spelling.
    pub fn as_str(self) -> &'static str
        ensures { result.now ≡ op_spelling self }
    {
        match self {
            OpWord::Burn => "burn",
            OpWord::Sleep => "sleep",
            OpWord::Queue => "queue",
            OpWord::Finish => "finish",
            OpWord::Delay => "delay",
            OpWord::Mod => "mod",
            OpWord::Cancel => "cancel",
        }
    }

    /// Returns which operands follow it.
    pub fn shape(self) -> Shape
        ensures { result ≡ op_shape_of self }
    {
        match self {
            OpWord::Burn | OpWord::Sleep => Shape::Ticks,
            OpWord::Queue => Shape::WorkCpu,
            OpWord::Finish => Shape::Alone,
            OpWord::Delay | OpWord::Mod => Shape::WorkTicks,
            OpWord::Cancel => Shape::Work,
        }
    }

    /// Returns the operation of this word and these operands. Fields that its shape doesn't have are ignored.
    pub fn with(self, fields: Fields) -> Op
        ensures { result ≡ op_with self fields }
    {
        match self {
            OpWord::Burn => Op::Burn(fields.number),
            OpWord::Sleep => Op::Sleep(fields.number),
            OpWord::Queue => Op::Queue(WorkId(fields.id), fields.cpu),
            OpWord::Finish => Op::Finish,
            OpWord::Delay => Op::Delay(WorkId(fields.id), fields.number),
            OpWord::Mod => Op::Mod(WorkId(fields.id), fields.number),
            OpWord::Cancel => Op::Cancel(WorkId(fields.id)),
        }
    }
}

impl Op {
    /// Returns its word.
    pub fn word(self) -> OpWord
        ensures { result ≡ op_word_of self }
    {
        match self {
            Op::Burn(_) => OpWord::Burn,
            Op::Sleep(_) => OpWord::Sleep,
            Op::Queue(..) => OpWord::Queue,
            Op::Finish => OpWord::Finish,
            Op::Delay(..) => OpWord::Delay,
            Op::Mod(..) => OpWord::Mod,
            Op::Cancel(_) => OpWord::Cancel,
        }
    }

    /// Returns its operands. Fields that its shape doesn't have are 0.
    pub fn fields(self) -> Fields
        ensures fields { result ≡ op_fields_of self }
        ensures op { IsOp self }
    {
        match self {
            Op::Burn(ticks) | Op::Sleep(ticks) => Fields::new(0, 0, ticks),
            Op::Queue(work, cpu) => Fields::new(cpu, work.0, 0),
            Op::Finish => Fields::new(0, 0, 0),
            Op::Delay(work, ticks) | Op::Mod(work, ticks) => Fields::new(0, work.0, ticks),
            Op::Cancel(work) => Fields::new(0, work.0, 0),
        }
    }
}

/// Returns the first of these words that is spelled like this, if there is one.
fn first_op_word(words: &[OpWord], word: &[u8]) -> Option<OpWord>
    ensures { result ≡ first_op_word words.now word.now }
{
    for first in words {
        if first.is_spelled(word) {
            return Some(*first);
        }
    }
    None
}
