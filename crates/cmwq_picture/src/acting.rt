//! Which instructions are the actor's own doing.
ghost use Rattle.cmwq_picture.specs.Picture.{is_act, is_own_move};
ghost use Rattle.cmwq_table.specs.Events.{is_refusal};
ghost use Rattle.std.specs.Prelude.{◌≡◌};

use cmwq_reads::is_question;
use cmwq_types::{Instr, Reply};

/// Whether the actor did something: it neither let the machine move, nor asked, nor was refused.
pub(crate) fn is_act(instr: Instr, reply: Reply) -> bool
    ensures { result ≡ is_act instr reply }
{
    !(is_own_move(instr) || is_question(instr) || is_refusal(reply))
}

fn is_own_move(instr: Instr) -> bool
    ensures { result ≡ is_own_move instr }
{
    matches!(
        instr,
        Instr::Fire
            | Instr::Step(_)
            | Instr::Tick
            | Instr::Next
            | Instr::Until(_)
            | Instr::Wait(_)
            | Instr::Quiet
    )
}

fn is_refusal(reply: Reply) -> bool
    ensures { result ≡ is_refusal reply }
{
    matches!(reply, Reply::Refused(_))
}
