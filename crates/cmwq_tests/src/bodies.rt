//! What no clause says of machines and of what stands on them. One test names them: each that does costs half a minute of proof.
use crate::{checkpoints, filling, machines, shared};
use cmwq_core::Core;
use cmwq_plain::Plain;
use cmwq_table::Machine;
use std::alloc::Global;
use std::process::Abort;
use std::sync::Wait;
use std::thread::Threads;
use std::time::Clock;

/// Both bodies copy, and debuggers over both lend checkpoints; over the first one callers of a shared engine get on, and fill a history.
fn check_bodies<M: Machine + Send + Sync, Other: Machine, R: Threads + Wait + Clock + Abort + Sync>(
    rt: &R,
    alloc: Global,
) {
    machines::check_copy::<M>(rt, alloc);
    machines::check_copy::<Other>(rt, alloc);
    checkpoints::check_way::<M>(rt, alloc);
    checkpoints::check_way::<Other>(rt, alloc);
    shared::check_callers::<M, R>(rt, alloc);
    filling::check_long::<M, R>(rt, alloc);
}

#[test]
fn both_bodies_and_what_stands_on_them_get_on(rt: HostRuntime) {
    check_bodies::<Core, Plain, HostRuntime>(&rt, rt.alloc());
}
