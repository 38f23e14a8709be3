//! Disabling a work, which keeps it from being queued, and enabling it again.
ghost use Rattle.cmwq_exec.specs.Performing.{Performs};
ghost use Rattle.cmwq_types.specs.declared.instr.Instr.TheVariants as instr;
ghost use Rattle.std.specs.Prelude.{◌<◌, ◌^◌, length};

use crate::answer::Answer;
use crate::performing::cancel;
use cmwq_parts::{Going, Parts};
use cmwq_types::{MAX_DEPTH, Refusal, WorkId};

/// Disables the work once more, and takes it off if it is pending.
pub(crate) fn disable<P: Parts>(going: &mut Going<P>, w: WorkId) -> Result<Answer, Refusal>
    requires work { w.0 < length going.old.scenario.works }
    requires stamps { going.old.state.next < 2 ^ 60 }
    ensures { Performs going.old (instr.Disable w) going.new result }
{
    let depth = going.parts.depth_of(w.0 as usize);
    if depth >= MAX_DEPTH {
        return Err(Refusal::TooDeep);
    }
    going.parts.set_depth(w.0 as usize, depth + 1);
    Ok(cancel(going, w.0 as usize))
}

/// Takes back one time that the work was disabled, and answers whether it can be queued again.
pub(crate) fn enable<P: Parts>(going: &mut Going<P>, w: WorkId) -> Result<Answer, Refusal>
    requires { w.0 < length going.old.scenario.works }
    ensures { Performs going.old (instr.Enable w) going.new result }
{
    if !going.is_disabled(w) {
        return Err(Refusal::NotDisabled);
    }
    let depth = going.parts.depth_of(w.0 as usize) - 1;
    going.parts.set_depth(w.0 as usize, depth);
    Ok(Answer::yes_or_no(depth == 0))
}
