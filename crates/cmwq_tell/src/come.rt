//! Instructions that have come, and the line that tells several of them.
ghost use Rattle.cmwq_streams.specs.Blocks.{Sends, SendsFront, SharesSink, sink};
ghost use Rattle.cmwq_streams.specs.Sending.{IsSendError};
ghost use Rattle.cmwq_streams.specs.declared.error.PlayError.TheVariants as PlayError;
ghost use Rattle.cmwq_tell.specs.Positions.{ended, held_text, held_then, is_of, lasting};
ghost use Rattle.cmwq_tell.specs.RunTold.{come_text, come_words, has_come};
ghost use Rattle.std.specs.Prelude.{◌≡◌, ◌↔◌, Err, IfErr, OnErr, OnOk, Some, false, true};

use cmwq_instr_words::InstrWords;
use cmwq_reads::{is_met, operands};
use cmwq_streams::{BlockWriter, PlayError, Sink};
use cmwq_table::Reads;
use cmwq_types::{Instr, Scenario};
use std::fmt;

/// Returns whether the instruction goes on for something that has come, so that it is done at once and changes nothing.
pub(crate) fn has_come<R: Reads>(machine: &R, instr: Instr) -> bool
    ensures { result ≡ has_come (R.loaded machine.now) (R.state machine.now) instr }
{
    is_met(machine, instr) && operands(machine, instr).is_none()
}

/// Equal instructions in a row that have come.
#[derive(Clone, Copy)]
pub(crate) struct Come {
    pub(crate) instr: Instr,
    /// The position of the first one.
    pub(crate) first: u64,
    /// The position of the last one.
    pub(crate) last: u64,
}

/// Returns those of the held ones that the instruction ends: all, unless it has come too and is equal to them.
pub(crate) fn ended(held: Option<Come>, come: bool, instr: Instr) -> Option<Come>
    ensures { result ≡ ended held come instr }
{
    if come && is_of(held, instr) {
        None
    } else {
        held
    }
}

/// Returns those that are held after the instruction at this position.
pub(crate) fn held_then(held: Option<Come>, come: bool, position: u64, instr: Instr) -> Option<Come>
    ensures { result ≡ held_then held come position instr }
{
    if come {
        Some(lasting(held, position, instr))
    } else {
        None
    }
}

fn is_of(held: Option<Come>, instr: Instr) -> bool
    ensures { result ≡ is_of held instr }
{
    match held {
        Some(come) => come.instr == instr,
        None => false,
    }
}

/// Returns the held ones with the instruction at this position, which has come; or that one alone if they differ.
fn lasting(held: Option<Come>, position: u64, instr: Instr) -> Come
    ensures { result ≡ lasting held position instr }
{
    let alone = Come {
        instr,
        first: position,
        last: position,
    };
    match held {
        Some(come) if come.instr == instr => Come {
            last: position,
            ..come
        },
        _ => alone,
    }
}

/// The line of the instructions that were held, if there are some.
#[derive(Clone, Copy)]
pub(crate) struct HeldLine<'a> {
    pub(crate) scenario: &'a Scenario,
    pub(crate) held: Option<Come>,
}

impl fmt::Display for HeldLine<'_> {
    ghost output = { λ line. Some (held_text line.scenario.now line.held) };

    fn fmt<W: fmt::Write>(&self, f: &mut fmt::Formatter<W>) -> fmt::Result {
        match self.held {
            Some(come) => {
                let line = ComeLine {
                    scenario: self.scenario,
                    come,
                };
                write!(f, "{line}")
            }
            None => Ok(()),
        }
    }
}

/// The line of equal instructions in a row that have come.
#[derive(Clone, Copy)]
struct ComeLine<'a> {
    scenario: &'a Scenario,
    come: Come,
}

impl fmt::Display for ComeLine<'_> {
    ghost output = { λ line. Some (come_text line.scenario.now line.come.first line.come.last line.come.instr) };

    fn fmt<W: fmt::Write>(&self, f: &mut fmt::Formatter<W>) -> fmt::Result {
        let Come { instr, first, last } = self.come;
        let words = InstrWords {
            scenario: self.scenario,
            instr,
        };
        if first == last {
            return write!(f, "# {first} {words}\n");
        }
        let come = ComeWords(instr);
        write!(f, "# {first} to {last} {words}: {come}\n")
    }
}

/// What has come that the instruction goes on for.
#[derive(Clone, Copy)]
struct ComeWords(Instr);

impl fmt::Display for ComeWords {
    ghost output = { λ words. Some (come_words words.0) };

    fn fmt<W: fmt::Write>(&self, f: &mut fmt::Formatter<W>) -> fmt::Result {
        match self.0 {
            Instr::Quiet => f.write_str("nothing is pending or runs"),
            Instr::Until(time) => write!(f, "it is {time} or later"),
            Instr::Wait(flush) => write!(f, "flush {flush} is done"),
            _ => Ok(()),
        }
    }
}

/// Writes the line of the held ones, if there are some. The errors are those of the writer's other calls; what went out then is a front of the
/// line.
pub(crate) fn write_held<W: Sink>(
    scenario: &Scenario,
    held: Option<Come>,
    lines: &mut BlockWriter<'_, W>,
) -> Result<(), PlayError>
    requires sound { W.failed (sink lines.old) ≡ false }
    ensures same { SharesSink lines.old lines.new }
    ensures ok { OnOk result (Sends W.contents lines.old lines.new (held_text scenario.now held)) }
    ensures err { OnErr result (SendsFront W.contents lines.old lines.new (held_text scenario.now held)) }
    ensures failed { (result ≡ Err PlayError.Write) ↔ (W.failed (sink lines.new) ≡ true) }
    ensures why { IfErr result (λ error. IsSendError error) }
{
    let line = HeldLine { scenario, held };
    write!(lines, "{line}")
}
