//! What a lock keeps, and the calls that are carried out on it.
//! A type says by an `impl Kept` what its log is, and by an `impl Call` what a turn may do.
ghost use Rattle.std.specs.Prelude.{◌≡◌, ℕ, ◌<◌, List, [], All};
ghost use Rattle.cmwq_lock.specs.Log.{Grows};

/// A value that a lock can keep. It has an origin, which no call changes, and a log of entries, each with the ticket and the
/// number of the caller that made it. These exist in contracts alone.
pub trait Kept {
    /// Where the value began.
    type Origin;

    /// What a call may leave in the log.
    type Entry;

    ghost origin: { Self → Self.Origin };

    ghost log: { Self → List Self.Entry };

    ghost ticket: { Self.Entry → ℕ };

    ghost caller: { Self.Entry → ℕ };
    // Which logs may stand, from an origin.
    ghost legal: { Self.Origin → List Self.Entry → Type 0 };
    // Which values a lock may keep.
    ghost sound: { Self → Type 0 };

    ghost empty_is_legal: { (o : Self.Origin) → legal o [] };

    ghost sound_is_legal: { (x : Self) → sound x → legal (origin x) (log x) };
}

/// What a caller does in its turn.
pub trait Call<T: Kept> {
    type Out;

    // Of the origin, the call, the log before and after, ticket, caller and result.
    ghost tells: { T.Origin → Self → List T.Entry → List T.Entry → ℕ → ℕ → Self.Out → Type 0 };

    /// Carries the call out. It adds at most one entry to the log, with this ticket and caller.
    fn apply(self, value: &mut T, ticket: u64, caller: u32) -> Self::Out
        requires sound { T.sound value.old }
        requires later { All (λ e. T.ticket e < ticket) (T.log value.old) }
        ensures sound { T.sound value.new }
        ensures origin { T.origin value.new ≡ T.origin value.old }
        ensures log { Grows T.ticket T.caller (T.log value.old) (T.log value.new) ticket caller }
        ensures tells { tells (T.origin value.old) self
            (T.log value.old) (T.log value.new) ticket caller result };
}
