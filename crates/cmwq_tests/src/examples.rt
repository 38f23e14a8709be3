//! A scenario that several tests take, and how they get it from its text.
ghost use Rattle.cmwq_types.specs.Faults.{IsValid};

use cmwq_play::{Marked, read_text};
use cmwq_types::Scenario;
use std::alloc::Global;
use std::process::Abort;

/// Works `a` and `b`, each of which burns once, on a queue of `max_active` 1.
pub(crate) const TWO_WORKS: &[u8] =
    b"cpus 1\nworkers 4\nsteps 1000\nflushes 2\nqueue q max 1\nwork a q\nwork b q\n\
    body a\nburn 1\nfinish\nbody b\nburn 1\nfinish\nactor t\n";

/// The scenario that the text spells.
pub(crate) fn scenario_of(rt: &impl Abort, alloc: Global, text: &[u8]) -> Scenario
    ensures { IsValid result }
{
    read_text(alloc, &mut Marked::new(text)).expect(rt, "a scenario's text")
}
