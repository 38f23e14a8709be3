//! What an instruction is answered, in few bytes.
ghost use Rattle.cmwq_exec.specs.Answered.{reply_in};
ghost use Rattle.cmwq_table.specs.State.{State};
ghost use Rattle.cmwq_table.specs.Table.{found, yes_or_no};
ghost use Rattle.std.specs.Prelude.{◌≡◌};

use cmwq_parts::{Going, Parts};
use cmwq_table::Happened;
use cmwq_types::{Reply, WorkId, WorkRun, WorkState};

/// What an instruction is answered. It is a `Reply` in a quarter of the room: where a work is, is found when the reply is made.
#[derive(Clone, Copy)]
pub(crate) enum Answer {
    Queued,
    Already,
    Changed,
    Cancelled,
    NotPending,
    Sync { was: bool, flush: u16 },
    Flush(u16),
    Done,
    Yes,
    No,
    /// Where this work is.
    Found(WorkId),
    /// What happened to a work.
    Happened(Happened),
}

impl Answer {
    /// The answer to whether something holds.
    pub(crate) fn yes_or_no(holds: bool) -> Answer
        ensures { (s : State) → reply_in s result ≡ yes_or_no holds }
    {
        if holds { Answer::Yes } else { Answer::No }
    }

    /// The reply, on a machine that stands as it does when the instruction is carried out.
    #[inline(always)]
    pub(crate) fn reply<P: Parts>(self, going: &Going<P>) -> Reply
        ensures { result ≡ reply_in going.now.state self }
    {
        match self {
            Answer::Queued => Reply::Queued,
            Answer::Already => Reply::Already,
            Answer::Changed => Reply::Changed,
            Answer::Cancelled => Reply::Cancelled,
            Answer::NotPending => Reply::NotPending,
            Answer::Sync { was, flush } => Reply::Sync { was, flush },
            Answer::Flush(flush) => Reply::Flush(flush),
            Answer::Done => Reply::Done,
            Answer::Yes => Reply::Yes,
            Answer::No => Reply::No,
            Answer::Found(work) => found(going, work.0 as usize),
            Answer::Happened(happened) => happened.reply(),
        }
    }
}

/// Where the work is.
fn found<P: Parts>(going: &Going<P>, w: usize) -> Reply
    ensures { result ≡ found going.now.state w }
{
    let place = going.parts.pending_of(w).map(|p| p.place);
    let run = going.parts.running_of(w).map(|r| WorkRun {
        pool: r.pool,
        worker: r.worker,
        mode: r.mode,
    });
    Reply::Found(WorkState { place, run })
}
