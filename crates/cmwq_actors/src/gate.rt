//! What stands before each call of an actor.
ghost use Rattle.std.specs.Prelude.{⊤, ℕ};

use std::sync::Wait;
use std::thread::Threads;
use std::time::Clock;

/// What an actor passes before each instruction that it issues. Tests hold actors there until others have come as far.
pub trait Gate: Sync {
    /// What is known once this actor has passed the gate before this call.
    ghost has_passed: { Self → ℕ → ℕ → Type 0 };

    /// Actor `actor` is about to issue its instruction `call`, both counted from 0. It may wait.
    fn before<R: Threads + Wait + Clock>(&self, rt: &R, actor: u8, call: u32)
        ensures passed { has_passed self.now actor call };
}

/// A gate that holds nobody.
pub struct OpenGate;

impl Gate for OpenGate {
    ghost has_passed = { λ _ _ _. ⊤ };

    fn before<R: Threads + Wait + Clock>(&self, _rt: &R, _actor: u8, _call: u32) {}
}
