//! Which checkpoints a debugger lends on a long way there and back.

use crate::checking::same;
use crate::examples::scenario_of;
use cmwq_debug::{Command, Debugger};
use cmwq_table::Machine;
use cmwq_types::Instr;
use std::alloc::Global;
use std::process::Abort;

/// A long wait, over which checkpoints become too many.
const A_LONG_WAIT: &[u8] = b"cpus 1
workers 1
steps 20000
flushes 0
actor x
tick * 16448
";

/// Where a command leads, and which checkpoints there are then: so many, at the first multiples of a spacing.
#[derive(Clone, Copy)]
struct Stop {
    position: u32,
    checkpoints: usize,
    spacing: u32,
}

/// Goes on by the command, and compares where it leads. Only ticks pass, so the machine at each checkpoint shows its position as its time.
fn check_stop<M: Machine>(
    rt: &impl Abort,
    debugger: &mut Debugger<M>,
    command: Command,
    stop: Stop,
) {
    let gone = debugger.command(command).is_ok();
    same(rt, stop.position, gone, true);
    same(rt, stop.position, debugger.position(), stop.position);
    let held = debugger.checkpoints();
    same(rt, stop.position, held.len(), stop.checkpoints);
    let mut at: u32 = 0;
    for checkpoint in held {
        at = at.saturating_add(stop.spacing);
        same(rt, at, checkpoint.at, at);
        same(rt, at, checkpoint.machine.now(), u64::from(at));
    }
}

/// Goes the long way, on which checkpoints stand further apart. What the debugger says there is told by the transcripts.
pub(crate) fn check_way<M: Machine>(rt: &impl Abort, alloc: Global) {
    let scenario = scenario_of(rt, alloc, A_LONG_WAIT);
    let ticks = vec![in alloc; Instr::Tick; 16_448].expect(rt, "memory is left");
    let mut debugger: Debugger<M> = Debugger::open(alloc, &scenario, ticks).expect(rt, "a way");
    let way = [
        (Command::Goto(1000), 1000, 15, 64),
        (Command::Back(1), 999, 15, 64),
        (Command::Goto(16_384), 16_384, 256, 64),
        (Command::Goto(16_448), 16_448, 128, 128),
        (Command::Back(16_448), 0, 128, 128),
    ];
    for (command, position, checkpoints, spacing) in way {
        let stop = Stop {
            position,
            checkpoints,
            spacing,
        };
        check_stop(rt, &mut debugger, command, stop);
    }
    let past = debugger.command(Command::Back(1)).is_err();
    same(rt, "past the start", past, true);
}
