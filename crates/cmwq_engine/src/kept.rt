//! The engine as a value that a lock keeps, and an instruction as a call on it.
ghost use Rattle.std.specs.Prelude.{refl};
ghost use Rattle.std.proofs.Common.{arith};
ghost use Rattle.cmwq_engine.specs.Engine.{IsSound};
ghost use Rattle.cmwq_engine.specs.History.{IsLegal};
ghost use Rattle.cmwq_engine.specs.Issuing.{HasIssued};

use crate::engine::Engine;
use crate::history::{Entry, Full, Setting};
use cmwq_lock::{Call, Kept};
use cmwq_table::Machine;
use cmwq_types::{Instr, Reply};

/// What an instruction came to that was issued in a turn.
#[derive(Clone, Copy, PartialEq, Eq)]
pub struct Receipt {
    /// The ticket of the turn.
    pub ticket: u64,
    /// Where the entry stands in the history, from 0.
    pub place: u32,
    /// What the machine answered.
    pub reply: Reply,
}

impl<M: Machine> Kept for Engine<M> {
    type Origin = Setting;

    type Entry = Entry;

    ghost origin = { λ engine. engine.setting };

    ghost log = { λ engine. engine.history };

    ghost ticket = { λ entry. entry.ticket };

    ghost caller = { λ entry. entry.caller };

    ghost legal = { λ from history. IsLegal from history };

    ghost sound = { λ engine. IsSound engine };

    ghost empty_is_legal = { λ from. record {
      bounded = Prim.omega arith;
      rising = λ i j entry before within. absurd (Prim.omega arith);
      answered = refl;
    } };

    ghost sound_is_legal = { λ engine sound. sound.legal };
}

impl<M: Machine> Call<Engine<M>> for Instr {
    type Out = Result<Receipt, Full>;

    ghost tells = { λ from instr before after ticket caller out. HasIssued from instr before after ticket caller out };

    fn apply(self, value: &mut Engine<M>, ticket: u64, caller: u32) -> Result<Receipt, Full> {
        let place = value.history().len() as u32;
        let reply = value.issue(ticket, caller, self)?;
        Ok(Receipt {
            ticket,
            place,
            reply,
        })
    }
}
