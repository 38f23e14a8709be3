//! What is kept of a state: every part of it, as bytes, and equality that is exact.
ghost use Rattle.cmwq_stored.specs.ExactStored.{fed_alike, stored_eq_is_exact};
ghost use Rattle.cmwq_stored.specs.Packed.{state_bytes};
ghost use Rattle.cmwq_stored.specs.Stored.{stored_eq};
ghost use Rattle.std.specs.Cmp.{decided, partial_equiv_from_equiv};
ghost use Rattle.std.specs.Prelude.{◌≡◌, ◌↔◌, ◌∷◌, [], IfOk, IsTrue};

use crate::packing::{pack_list, pack_machine, pack_works};
use cmwq_table::View;
use cmwq_types::NoMemory;
use std::alloc::Global;
use std::hash::{Hash, Hasher};
use std::marker::Model;

/// So many bytes most states have at most.
const USUAL_SIZE: usize = 224;

/// Every part of a state, as bytes: the machine's, how many lines each actor has carried out, and the flush that each one's last line gave.
///
/// Contracts see the bytes. A number takes one byte below 254, three below 65,536, and else nine. No form that is written or read has them.
#[derive(Drop)]
pub struct Stored {
    bytes: Vec<u8>,
}

impl Model for Stored {
    ghost use Rattle.cmwq_stored.specs.Stored.{StoredContents};

    ghost Value = { StoredContents };

    ghost view = { λ k. k.bytes.items };
}

/// Two kept states are equal exactly where all their bytes are.
impl PartialEq for Stored {
    ghost eq = { stored_eq };

    ghost laws = { partial_equiv_from_equiv (decided stored_eq stored_eq_is_exact) };

    fn eq(&self, other: &Stored) -> bool
        ensures by_bytes { result ≡ stored_eq self.now other.now }
        ensures exact { IsTrue result ↔ (self.now ≡ other.now) }
    {
        self.bytes == other.bytes
    }
}

impl Eq for Stored {
    ghost laws = { decided stored_eq stored_eq_is_exact };
}

/// A hasher is fed all bytes at once.
impl Hash for Stored {
    ghost hash_input = { λ k. k ∷ [] };

    ghost respects_eq = { fed_alike (λ k. k ∷ []) };

    fn hash<H: Hasher>(&self, state: &mut H) {
        state.write(&self.bytes);
    }
}

impl Stored {
    /// A machine's state, how many lines each actor has carried out, and the flush that its last line gave, if it gave one, to be looked up. The
    /// only error is want of memory.
    #[tactic(auto, unfolding(crate::specs::Packed::state_bytes))]
    pub fn of(
        alloc: Global,
        view: &View,
        at: &[u16],
        waits: &[Option<u16>],
    ) -> Result<Stored, NoMemory>
        ensures { IfOk result (λ stored. stored ≡ state_bytes view.now at.now waits.now) }
    {
        let mut bytes = Vec::with_capacity(alloc, USUAL_SIZE)?;
        pack_machine(&mut bytes, view)?;
        pack_works(&mut bytes, view)?;
        pack_list(&mut bytes, at)?;
        pack_list(&mut bytes, waits)?;
        Ok(Stored { bytes })
    }

    /// The same, in no more memory than it needs, to be kept. The only error is want of memory.
    pub fn kept(&self) -> Result<Stored, NoMemory>
        ensures { IfOk result (λ kept. kept ≡ self.now) }
    {
        let alloc = *self.bytes.allocator();
        Ok(Stored {
            bytes: Vec::from_slice(alloc, &self.bytes)?,
        })
    }
}
