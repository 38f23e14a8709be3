//! An order as notes: what it comes to, its steps, and where the actors stand then.
ghost use Rattle.cmwq_annotated.specs.Notes.{AreNotes, IsNote, note_line, note_lines, reply_notes};
ghost use Rattle.cmwq_explored.specs.Found.{before_note, kind_note, notes_of_step, rest_notes, rest_notes_of, step_note, step_notes, waits_note, who};
ghost use Rattle.cmwq_explored.specs.Names.{HasName, HasNames};
ghost use Rattle.cmwq_table.specs.Table.{table};
ghost use Rattle.std.specs.List.{AllByRecursion};
ghost use Rattle.std.specs.Prelude.{◌≡◌, ◌++◌, OnOk, Some};

use crate::answers::actor_name;
use cmwq_annotated::fit;
use cmwq_explore::Rest;
use cmwq_instr_words::InstrWords;
use cmwq_lines::{Block, ReplyLines};
use cmwq_orders::{Choice, Question};
use cmwq_table::{Machine, is_silent};
use cmwq_types::{Actor, Instr, NoMemory, Reply, Scenario, fields_of};
use std::fmt;

/// What an order comes to.
#[derive(Clone, Copy)]
pub(crate) struct KindNote<'a> {
    pub(crate) scenario: &'a Scenario,
    pub(crate) question: Question,
}

impl fmt::Display for KindNote<'_> {
    ghost output = { λ note. Some (kind_note note.scenario.now note.question) };

    fn fmt<W: fmt::Write>(&self, f: &mut fmt::Formatter<W>) -> fmt::Result {
        let scenario = self.scenario;
        match self.question {
            Question::After { actor, work } => {
                let work = scenario.work_name(work.0 as usize);
                let actor = actor_name(scenario, actor as usize);
                write!(f, "{work} is pending or runs, and {actor} has ended")
            }
            Question::Never(work) => {
                let work = scenario.work_name(work.0 as usize);
                write!(f, "{work} runs")
            }
            Question::Together(v, w) => {
                let one = scenario.work_name(v.0 as usize);
                let other = scenario.work_name(w.0 as usize);
                write!(f, "{one} and {other} run at the same time")
            }
            Question::Stuck => f.write_str("no actor can go on, and not all have ended"),
        }
    }
}

/// Who does a step.
#[derive(Clone, Copy)]
struct Who<'a> {
    scenario: &'a Scenario,
    choice: Choice,
}

impl fmt::Display for Who<'_> {
    ghost output = { λ it. Some (who it.scenario.now it.choice) };

    fn fmt<W: fmt::Write>(&self, f: &mut fmt::Formatter<W>) -> fmt::Result {
        match self.choice {
            Choice::Line(actor) => { f.write_str(actor_name(self.scenario, actor as usize)) }
            Choice::Own(_) => f.write_str("(machine)"),
        }
    }
}

/// A step of an order, with its number, from 1.
#[derive(Clone, Copy)]
struct StepNote<'a> {
    scenario: &'a Scenario,
    number: usize,
    choice: Choice,
    instr: Instr,
}

impl fmt::Display for StepNote<'_> {
    ghost output = { λ note. Some (step_note note.scenario.now note.number note.choice note.instr) };

    fn fmt<W: fmt::Write>(&self, f: &mut fmt::Formatter<W>) -> fmt::Result {
        let StepNote {
            scenario,
            number,
            choice,
            instr,
        } = *self;
        let who = Who { scenario, choice };
        let words = InstrWords { scenario, instr };
        write!(f, "{number} {who} {words}")
    }
}

/// An actor that hasn't ended, and what it waits for.
#[derive(Clone, Copy)]
struct WaitsNote<'a> {
    scenario: &'a Scenario,
    actor: usize,
    flush: u16,
}

impl fmt::Display for WaitsNote<'_> {
    ghost output = { λ note. Some (waits_note note.scenario.now note.actor note.flush) };

    fn fmt<W: fmt::Write>(&self, f: &mut fmt::Formatter<W>) -> fmt::Result {
        let WaitsNote { flush, .. } = *self;
        let actor = actor_name(self.scenario, self.actor);
        write!(f, "{actor} waits for flush {flush}")
    }
}

/// An actor that hasn't ended, and its next line.
#[derive(Clone, Copy)]
struct BeforeNote<'a> {
    scenario: &'a Scenario,
    actor: usize,
    instr: Instr,
}

impl fmt::Display for BeforeNote<'_> {
    ghost output = { λ note. Some (before_note note.scenario.now note.actor note.instr) };

    fn fmt<W: fmt::Write>(&self, f: &mut fmt::Formatter<W>) -> fmt::Result {
        let BeforeNote {
            scenario,
            instr,
            ..
        } = *self;
        let actor = actor_name(scenario, self.actor);
        let words = InstrWords { scenario, instr };
        write!(f, "{actor} is before {words}")
    }
}

/// The names of the actors are names.
pub(crate) fn names_fit(actors: &[Actor])
    ensures { AllByRecursion HasName actors.now }
{
    for actor in actors {
        let _name = actor.name.as_bytes();
    }
}

/// Writes what the order comes to.
pub(crate) fn push_kind(
    text: &mut Block,
    scenario: &Scenario,
    question: Question,
) -> Result<(), NoMemory>
    requires names { HasNames scenario.now }
    ensures text { OnOk result (text.new ≡ text.old ++ note_line (kind_note scenario.now question)) }
    ensures note { IsNote (kind_note scenario.now question) }
{
    let note = KindNote { scenario, question };
    write!(text, "# {note}\n")
}

/// A machine whose steps are noted, with the lines of its replies.
#[derive(Drop)]
pub(crate) struct Noted<'a, M: Machine> {
    pub(crate) scenario: &'a Scenario,
    pub(crate) machine: M,
    pub(crate) lines: ReplyLines<'a>,
}

impl<M: Machine> Noted<'_, M> {
    /// Writes the steps, carried out on the machine, each with the line of its reply.
    pub(crate) fn push_steps(
        &mut self,
        text: &mut Block,
        steps: &[(Choice, Instr)],
    ) -> Result<(), NoMemory>
        requires loaded { M.loaded self.old.machine ≡ self.old.scenario.now }
        requires lines { self.old.lines ≡ self.old.scenario.now }
        requires names { HasNames self.old.scenario.now }
        ensures text { OnOk result (text.new ≡ text.old ++ note_lines (step_notes self.old.scenario.now 0 (M.state self.old.machine) steps.now)) }
        ensures notes { OnOk result (AreNotes (step_notes self.old.scenario.now 0 (M.state self.old.machine) steps.now)) }
    {
        for (before, step) in steps.iter().enumerate() {
            self.push_step(text, before + 1, *step)?;
        }
        Ok(())
    }

    /// Writes the step of this number, carried out on the machine, and the line of its reply.
    fn push_step(
        &mut self,
        text: &mut Block,
        number: usize,
        step: (Choice, Instr),
    ) -> Result<(), NoMemory>
        requires loaded { M.loaded self.old.machine ≡ self.old.scenario.now }
        requires lines { self.old.lines ≡ self.old.scenario.now }
        requires names { HasNames self.old.scenario.now }
        ensures scenario { self.new.scenario ≡ self.old.scenario }
        ensures loaded { M.loaded self.new.machine ≡ self.old.scenario.now }
        ensures lines { self.new.lines ≡ self.old.scenario.now }
        ensures state { M.state self.new.machine ≡ (table self.old.scenario.now (M.state self.old.machine) step.1).0 }
        ensures text { OnOk result (text.new ≡ text.old ++ note_lines (notes_of_step self.old.scenario.now number (M.state self.old.machine) step)) }
        ensures notes { OnOk result (AreNotes (notes_of_step self.old.scenario.now number (M.state self.old.machine) step)) }
    {
        let (choice, instr) = step;
        let _fields = fields_of(instr);
        let Noted {
            scenario,
            machine,
            lines,
        } = self;
        let note = StepNote {
            scenario,
            number,
            choice,
            instr,
        };
        let reply = machine.exec(instr);
        fit(reply);
        write!(text, "# {note}\n")?;
        push_reply(text, lines, machine.now(), instr, &reply)
    }
}

/// Writes the line of the reply further in, if it has one.
fn push_reply(
    text: &mut Block,
    lines: &mut ReplyLines<'_>,
    time: u64,
    instr: Instr,
    reply: &Reply,
) -> Result<(), NoMemory>
    ensures same { lines.new ≡ lines.old }
    ensures text { OnOk result (text.new ≡ text.old ++ note_lines (reply_notes lines.old time instr reply.now)) }
{
    if is_silent(*reply) {
        return Ok(());
    }
    write!(text, "#   ")?;
    lines.push(text, time, instr, reply)
}

/// Writes where the actors stand that haven't ended.
pub(crate) fn push_rests(
    text: &mut Block,
    scenario: &Scenario,
    rests: &[Rest],
) -> Result<(), NoMemory>
    requires names { HasNames scenario.now }
    ensures text { OnOk result (text.new ≡ text.old ++ note_lines (rest_notes scenario.now 0 rests.now)) }
    ensures notes { OnOk result (AreNotes (rest_notes scenario.now 0 rests.now)) }
{
    for (actor, rest) in rests.iter().enumerate() {
        push_rest(text, scenario, actor, *rest)?;
    }
    Ok(())
}

/// Writes where the actor stands, if it hasn't ended.
#[tactic(auto, using(crate::proofs::StepLemmas::waits_is_note, crate::proofs::StepLemmas::before_is_note))]
fn push_rest(
    text: &mut Block,
    scenario: &Scenario,
    actor: usize,
    rest: Rest,
) -> Result<(), NoMemory>
    requires names { HasNames scenario.now }
    ensures text { OnOk result (text.new ≡ text.old ++ note_lines (rest_notes_of scenario.now actor rest)) }
    ensures notes { AreNotes (rest_notes_of scenario.now actor rest) }
{
    match rest {
        Rest::Ended => Ok(()),
        Rest::Waits(flush) => {
            let note = WaitsNote {
                scenario,
                actor,
                flush,
            };
            write!(text, "# {note}\n")
        }
        Rest::IsBefore(instr) => {
            let _fields = fields_of(instr);
            let note = BeforeNote {
                scenario,
                actor,
                instr,
            };
            write!(text, "# {note}\n")
        }
    }
}
