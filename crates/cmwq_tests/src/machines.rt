//! Copies of a scenario and of a machine.

use crate::checking::same;
use crate::examples::{TWO_WORKS, scenario_of};
use cmwq_table::Machine;
use cmwq_types::{Instr, Reply, WorkId};
use std::alloc::Global;
use std::process::Abort;

const B: WorkId = WorkId(1);

/// A copy of a scenario equals it until one of the two changes.
#[test]
fn a_copied_scenario_equals_its_source(rt: HostRuntime) {
    let source = scenario_of(&rt, rt.alloc(), TWO_WORKS);
    let mut copy = source.copy().expect(&rt, "memory is left");
    same(&rt, "a copy", copy == source, true);
    copy.works.pop();
    same(&rt, "changed", copy == source, false);
}

/// Whether both machines show the same state.
fn look_alike<M: Machine>(rt: &impl Abort, one: &M, other: &M) -> bool {
    let one = one.look().expect(rt, "memory is left");
    let other = other.look().expect(rt, "memory is left");
    one == other
}

/// A copy of a machine whose second work is delayed shows the same, and goes on alone; its source then goes through the same.
pub(crate) fn check_copy<M: Machine>(rt: &impl Abort, alloc: Global) {
    let scenario = scenario_of(rt, alloc, TWO_WORKS);
    let mut source: M = M::load(alloc, &scenario).expect(rt, "a valid scenario");
    source.exec(Instr::Delay(B, 0, 3));
    let mut copy = source.copy().expect(rt, "memory is left");
    same(rt, "a copy", look_alike(rt, &copy, &source), true);
    same(rt, "on it", copy.exec(Instr::Cancel(B)), Reply::Cancelled);
    same(rt, "it went on", look_alike(rt, &copy, &source), false);
    let reply = source.exec(Instr::Cancel(B));
    same(rt, "on its source", reply, Reply::Cancelled);
    same(rt, "both went on", look_alike(rt, &copy, &source), true);
}
