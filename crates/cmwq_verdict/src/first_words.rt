//! The words that lines begin with.
ghost use Rattle.cmwq_grammar.specs.Instructions.{operands_of};
ghost use Rattle.cmwq_grammar.specs.declared.next.Next.TheVariants as Next;
ghost use Rattle.cmwq_grammar.specs.Offers.{has_named, operation_words, words_of_next};
ghost use Rattle.cmwq_types.specs.Listing.{word_if};
ghost use Rattle.cmwq_types.specs.Mnemonics.{spelling};
ghost use Rattle.cmwq_verdict.specs.OfferLines.{spelled};
ghost use Rattle.std.specs.List.{filter};
ghost use Rattle.std.specs.Prelude.{◌≡◌, ◌++◌, IfOk, OnOk, [], codes, if◌then◌else◌, map};

use cmwq_grammar::Next;
use cmwq_types::{Mnemonic, NoMemory, Shape, shape_of};
use std::alloc::Global;

/// The first word of a line.
#[derive(Clone, Copy)]
pub enum FirstWord {
    Cpus,
    Workers,
    Steps,
    Flushes,
    Work,
    Body,
    Burn,
    Sleep,
    Finish,
    Actor,
    /// An instruction's word. A queue's line begins with one, `queue`, and so do operations with four of them.
    Instruction(Mnemonic),
}

/// The words of operations but for `finish`.
const OPERATION_WORDS: [FirstWord; 6] = [
    FirstWord::Burn,
    FirstWord::Sleep,
    FirstWord::Instruction(Mnemonic::Queue),
    FirstWord::Instruction(Mnemonic::Delay),
    FirstWord::Instruction(Mnemonic::Mod),
    FirstWord::Instruction(Mnemonic::Cancel),
];

impl FirstWord {
    /// How it is spelled.
    pub fn as_bytes(self) -> &'static [u8]
        ensures { result.now ≡ spelled self }
    {
        match self {
            FirstWord::Cpus => b"cpus",
            FirstWord::Workers => b"workers",
            FirstWord::Steps => b"steps",
            FirstWord::Flushes => b"flushes",
            FirstWord::Work => b"work",
            FirstWord::Body => b"body",
            FirstWord::Burn => b"burn",
            FirstWord::Sleep => b"sleep",
            FirstWord::Finish => b"finish",
            FirstWord::Actor => b"actor",
            FirstWord::Instruction(mnemonic) => mnemonic.as_bytes(),
        }
    }
}

/// The words that such a line may begin with, in the order of the table. It fails only for want of memory.
pub(crate) fn words_of(alloc: Global, next: Next) -> Result<Vec<FirstWord>, NoMemory>
    ensures { IfOk result (λ words. map spelled words.items ≡ words_of_next next) }
{
    let mut words = Vec::new(alloc);
    push_first_words(&mut words, next)?;
    Ok(words)
}

/// Adds the words that such a line may begin with.
fn push_first_words(words: &mut Vec<FirstWord>, next: Next) -> Result<(), NoMemory>
    ensures { OnOk result (map spelled words.new.items ≡ map spelled words.old.items ++ words_of_next next) }
{
    match next {
        Next::Cpus => push_if(words, true, FirstWord::Cpus),
        Next::Workers => push_if(words, true, FirstWord::Workers),
        Next::Steps => push_if(words, true, FirstWord::Steps),
        Next::Flushes => push_if(words, true, FirstWord::Flushes),
        Next::Declaration { room, queues } => push_declarations(words, room, queues),
        Next::Work { room } => push_work_or_body(words, room),
        Next::Body => push_if(words, true, FirstWord::Body),
        Next::Actor => push_if(words, true, FirstWord::Actor),
        Next::Operation { room } => push_operations(words, room),
        Next::Instruction {
            room,
            works,
            queues,
            actor,
        } => push_actor_words(words, Mnemonic::all(), room, works, queues, actor),
    }
}

/// Adds the words of a queue, of a work and of an actor, where there is room for one or a queue for it.
fn push_declarations(words: &mut Vec<FirstWord>, room: bool, queues: bool) -> Result<(), NoMemory>
    ensures { OnOk result (map spelled words.new.items ≡ map spelled words.old.items ++ words_of_next (Next.Declaration room queues)) }
{
    push_if(words, room, FirstWord::Instruction(Mnemonic::Queue))?;
    push_if(words, queues, FirstWord::Work)?;
    push_if(words, true, FirstWord::Actor)
}

/// Adds the words of a work, where there is room for one, and of a body.
fn push_work_or_body(words: &mut Vec<FirstWord>, room: bool) -> Result<(), NoMemory>
    ensures { OnOk result (map spelled words.new.items ≡ map spelled words.old.items ++ words_of_next (Next.Work room)) }
{
    push_if(words, room, FirstWord::Work)?;
    push_if(words, true, FirstWord::Body)
}

/// Adds the words of operations, where there is room for one, and `finish`.
fn push_operations(words: &mut Vec<FirstWord>, room: bool) -> Result<(), NoMemory>
    ensures { OnOk result (map spelled words.new.items ≡ map spelled words.old.items ++ words_of_next (Next.Operation room)) }
{
    push_operation_words(words, room)?;
    push_if(words, true, FirstWord::Finish)
}

/// Adds the words of operations but for `finish`, where there is room for one.
fn push_operation_words(words: &mut Vec<FirstWord>, room: bool) -> Result<(), NoMemory>
    ensures { OnOk result (map spelled words.new.items ≡ map spelled words.old.items ++ (if room then operation_words else [])) }
{
    if !room {
        return Ok(());
    }
    words.extend_from_slice(&OPERATION_WORDS)?;
    Ok(())
}

/// Adds the word where the test holds.
fn push_if(words: &mut Vec<FirstWord>, holds: bool, word: FirstWord) -> Result<(), NoMemory>
    ensures { OnOk result (map spelled words.new.items ≡ map spelled words.old.items ++ word_if holds (spelled word)) }
{
    if holds {
        words.push(word)?;
    }
    Ok(())
}

/// Adds those of these words of instructions that an actor's line may begin with, where there is room for one, and the word of a further
/// actor, where that may come.
fn push_actor_words(
    words: &mut Vec<FirstWord>,
    all: &[Mnemonic],
    room: bool,
    works: bool,
    queues: bool,
    actor: bool,
) -> Result<(), NoMemory>
    ensures { OnOk result (map spelled words.new.items
        ≡ map spelled words.old.items ++ ((if room then map spelling (filter (λ mnemonic. has_named works queues (operands_of mnemonic)) all.now) else [])
        ++ word_if actor (codes "actor"))) }
{
    if room {
        push_named(words, all, works, queues)?;
    }
    push_if(words, actor, FirstWord::Actor)
}

/// Adds those of these words of instructions for which there is one of what the first operand names.
fn push_named(
    words: &mut Vec<FirstWord>,
    all: &[Mnemonic],
    works: bool,
    queues: bool,
) -> Result<(), NoMemory>
    ensures { OnOk result (map spelled words.new.items
        ≡ map spelled words.old.items ++ map spelling (filter (λ mnemonic. has_named works queues (operands_of mnemonic)) all.now)) }
{
    for mnemonic in all {
        push_if_named(words, *mnemonic, works, queues)?;
    }
    Ok(())
}

/// Adds the instruction's word where there is one of what its first operand names.
fn push_if_named(
    words: &mut Vec<FirstWord>,
    mnemonic: Mnemonic,
    works: bool,
    queues: bool,
) -> Result<(), NoMemory>
    ensures { OnOk result (map spelled words.new.items
        ≡ map spelled words.old.items ++ word_if (has_named works queues (operands_of mnemonic)) (spelling mnemonic)) }
{
    let has_named = has_named(mnemonic, works, queues);
    push_if(words, has_named, FirstWord::Instruction(mnemonic))
}

/// Whether there is one of what the instruction's first operand names.
fn has_named(mnemonic: Mnemonic, works: bool, queues: bool) -> bool
    ensures { result ≡ has_named works queues (operands_of mnemonic) }
{
    match shape_of(mnemonic) {
        Shape::Work | Shape::WorkCpu | Shape::WorkTicks | Shape::WorkCpuTicks => works,
        Shape::Queue | Shape::QueueNumber => queues,
        Shape::Alone | Shape::Ticks | Shape::Pool | Shape::Flush | Shape::Time => true,
    }
}
