//! What is carried out several times at once: `next` up to a reply with a line, and what comes out the same.
ghost use Rattle.cmwq_exec.specs.Advances.{HasAdvanced};
ghost use Rattle.cmwq_exec.specs.Answered.{next_reply};
ghost use Rattle.cmwq_table.specs.Ready.{IsKept};
ghost use Rattle.cmwq_table.specs.Repeats.{HasAnswered, HasGone, HasRepeated, reply_of};
ghost use Rattle.cmwq_table.specs.State.{is_disabled};
ghost use Rattle.cmwq_table.specs.Table.{is_met, operands};
ghost use Rattle.cmwq_types.specs.declared.instr.Instr.TheVariants as instr;
ghost use Rattle.cmwq_types.specs.declared.reply.Reply.TheVariants as reply;
ghost use Rattle.std.specs.Prelude.{◌≡◌, ◌+◌, ◌-◌, ◌<◌, ◌≤◌, ◌&&◌, is_none, not};

use crate::performing::{happen, spend};
use cmwq_parts::{Going, Parts};
use cmwq_reads::{is_met, is_question, operands};
use cmwq_table::{Happened, Went};
use cmwq_types::{Instr, Reply, WorkId};

/// Carries out `next` until a reply has a line, at least once and at most so many times. Answers how often that was, and how the last one
/// came out.
#[inline(always)]
pub(crate) fn go<P: Parts>(going: &mut Going<P>, most: u32) -> (u32, Went)
    requires some { 0 < most }
    requires kept { IsKept going.old }
    ensures gone { HasGone going.old.scenario going.old.state most result.0 going.new.state (reply_of result.1) }
    ensures scenario { going.new.scenario ≡ going.old.scenario }
    ensures kept { IsKept going.new }
{
    let mut count = 0;
    let mut left = most.min(steps_left(going));
    loop {
        if left == 0 {
            return (count + 1, Went::Spent);
        }
        let (more, happened) = advance(going, left);
        count += more;
        left -= more;
        if let Some(happened) = happened {
            return (count, Went::Happened(happened));
        }
        if count == most {
            return (count, Went::Ticked);
        }
    }
}

/// How many steps are left.
fn steps_left<P: Parts>(going: &Going<P>) -> u32
    requires { IsKept going.now }
    ensures { result ≡ going.now.scenario.steps - going.now.state.spent }
{
    going.parts.scenario().steps - going.parts.spent()
}

/// Carries out one `next`, and where the machine is settled as many as are known to be ticks, at most so many. Answers how many that was, and
/// what happened in the last.
#[inline(always)]
fn advance<P: Parts>(going: &mut Going<P>, most: u32) -> (u32, Option<Happened>)
    requires some { 0 < most }
    requires left { going.old.state.spent + most ≤ going.old.scenario.steps }
    requires kept { IsKept going.old }
    ensures advanced { HasAdvanced going.old most result.0 going.new (next_reply result.1) }
    ensures spent { going.new.state.spent ≡ going.old.state.spent + result.0 }
{
    match happen::<P, false>(going) {
        Some(happened) => {
            spend(going, 1);
            (1, Some(happened))
        }
        None => {
            let passed = going.parts.pass(most);
            spend(going, passed);
            (passed, None)
        }
    }
}

/// Carries out again, at most so many times, the instruction that was the last and was answered so, where it is known to come out the same.
/// What changes nothing but what is spent is a question, what was refused, what has what it goes on for, what is queued already, and a
/// cancel of what isn't pending; and a `mod` sets the timer anew that it has set. Answers how often that was.
pub(crate) fn again<P: Parts>(going: &mut Going<P>, instr: Instr, reply: Reply, most: u32) -> u32
    requires kept { IsKept going.old }
    requires answered { HasAnswered going.old.scenario going.old.state instr reply }
    ensures repeated { HasRepeated going.old.scenario going.old.state instr reply most result going.new.state }
    ensures scenario { going.new.scenario ≡ going.old.scenario }
{
    if most == 0 {
        return 0;
    }
    if is_question(instr) {
        return most;
    }
    match reply {
        Reply::Refused(_why) => most,
        Reply::Done if has_come(going, instr) => most,
        Reply::Already => match instr {
            Instr::Queue(_work, _cpu) => spend_again(going, most),
            Instr::Delay(_work, _cpu, _ticks) => spend_again(going, most),
            _ => 0,
        },
        Reply::NotPending => match instr {
            Instr::Cancel(_work) => spend_again(going, most),
            _ => 0,
        },
        Reply::Changed => match instr {
            Instr::Mod(work, cpu, ticks) => modify_again(going, work, cpu, ticks, most),
            _ => 0,
        },
        _ => 0,
    }
}

/// Whether what the instruction goes on for has come, and there is such a thing.
fn has_come<P: Parts>(going: &Going<P>, instr: Instr) -> bool
    ensures { result ≡ (is_met going.now.scenario going.now.state instr && is_none (operands going.now.scenario going.now.state instr)) }
{
    is_met(&going.parts, instr) && operands(&going.parts, instr).is_none()
}

/// Counts at most so many instructions more as spent, and no more than are left. Answers how many.
fn spend_again<P: Parts>(going: &mut Going<P>, most: u32) -> u32
    requires kept { IsKept going.old }
    ensures few { result ≤ most }
    ensures left { going.old.state.spent + result ≤ going.old.scenario.steps }
    ensures spent { going.new ≡ record going.old { state = record going.old.state { spent = going.old.state.spent + result } } }
{
    let left = steps_left(going);
    let count = most.min(left);
    spend(going, count);
    count
}

/// Sets the timer of a work that is on one anew, at most so many times at once, and no more often than steps are left. Each time the work is
/// born again, so of all these births the last one is left. Answers how often: never where a `mod` would do something else.
fn modify_again<P: Parts>(going: &mut Going<P>, work: WorkId, cpu: u8, ticks: u32, most: u32) -> u32
    requires kept { IsKept going.old }
    ensures repeated { HasRepeated going.old.scenario going.old.state (instr.Mod work cpu ticks) reply.Changed most result going.new.state }
    ensures scenario { going.new.scenario ≡ going.old.scenario }
{
    let w = work.0 as usize;
    let count = most.min(steps_left(going));
    if count == 0 || ticks == 0 || !is_modifiable(going, work, cpu, ticks) {
        return 0;
    }
    match going.parts.pending_of(w) {
        Some(p) if !p.place.is_placed() => {
            going.parts.skip_stamps(count - 1);
            going.replace(w, p, cpu, ticks);
            spend(going, count);
            count
        }
        _ => 0,
    }
}

/// Whether there is such a work and such a CPU, and the work isn't disabled.
fn is_modifiable<P: Parts>(going: &Going<P>, work: WorkId, cpu: u8, ticks: u32) -> bool
    ensures { result ≡ (is_none (operands going.now.scenario going.now.state (instr.Mod work cpu ticks)) && not (is_disabled going.now.state work.0)) }
{
    operands(&going.parts, Instr::Mod(work, cpu, ticks)).is_none() && !going.is_disabled(work)
}
