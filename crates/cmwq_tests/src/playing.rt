//! `play`: actors in threads of their own, and the texts that they leave.
ghost use Rattle.cmwq_types.specs.declared.limits.TheConstants.{MAX_LINES};
ghost use Rattle.std.specs.Prelude.{◌≤◌, ⊤};

use crate::checking::same;
use crate::examples::scenario_of;
use crate::streams::{Failure, Output, failing_at};
use cmwq_actors::Gate;
use cmwq_interleaving::play;
use cmwq_play::{Marked, PlayError, run};
use cmwq_types::{Instr, WorkId};
use std::alloc::Global;
use std::io::Write;
use std::process::Abort;
use std::sync::Wait;
use std::sync::atomic::{AtomicBool, AtomicU32, Ordering};
use std::thread;
use std::thread::Threads;
use std::time::{Clock, Duration};

/// A gate that holds the first call of each actor but the last until the last is at its second, and that one until all
/// others are at their first. So they pass only if all run at once.
#[derive(Drop)]
struct Meeting {
    last: u8,
    others_there: AtomicU32,
    last_there: AtomicBool,
    late: AtomicBool,
}

impl Meeting {
    fn new(last: u8) -> Meeting {
        Meeting {
            last,
            others_there: AtomicU32::new(0),
            last_there: AtomicBool::new(false),
            late: AtomicBool::new(false),
        }
    }

    /// Whether the last actor is at its second call, or, for that one, all others are at their first.
    fn is_met(&self, is_last: bool) -> bool {
        if is_last {
            self.others_there.load(Ordering::SeqCst) == u32::from(self.last)
        } else {
            self.last_there.load(Ordering::SeqCst)
        }
    }

    /// Waits until it is so, at most 10,000 turns of a millisecond.
    fn hold<R: Wait + Clock>(&self, rt: &R, is_last: bool) {
        for _turn in 0..10_000 {
            if self.is_met(is_last) {
                return;
            }
            thread::sleep(rt, Duration::from_millis(1));
        }
        self.late.store(true, Ordering::SeqCst);
    }
}

impl Gate for Meeting {
    ghost has_passed = { λ _ _ _. ⊤ };

    fn before<R: Threads + Wait + Clock>(&self, rt: &R, actor: u8, call: u32) {
        if actor != self.last && call == 0 {
            let _ = self.others_there.fetch_add(1, Ordering::SeqCst);
            self.hold(rt, false);
        }
        if actor == self.last && call == 1 {
            self.last_there.store(true, Ordering::SeqCst);
            self.hold(rt, true);
        }
    }
}

/// What the play answers, and the writer that it was given. Its actors have met.
fn played<R: Threads + Wait + Clock + Sync + AllocGlobal + Abort, W: Write + Drop>(
    rt: &R,
    text: &[u8],
    capacity: u32,
    last: u8,
    writer: W,
) -> (Result<(), PlayError>, W)
    requires { capacity ≤ MAX_LINES }
{
    let scenario = scenario_of(rt, rt.alloc(), text);
    let gate = Meeting::new(last);
    let mut writer = Marked::new(writer);
    let result = play(rt, rt.alloc(), scenario, capacity, &gate, &mut writer);
    same(rt, "late", gate.late.load(Ordering::SeqCst), false);
    (result, writer.into_inner())
}

/// What running the text prints.
fn printed(rt: &impl Abort, alloc: Global, text: &[u8]) -> Vec<u8> {
    let mut reader = Marked::new(text);
    let mut writer = Marked::new(Vec::new(alloc));
    run(alloc, &mut reader, &mut writer).expect(rt, "the text runs");
    writer.into_inner()
}

/// Two actors: x queues a; y queues b and asks.
const TWO_ACTORS: &[u8] = b"cpus 1
workers 4
steps 1000
flushes 2
queue q max 1
work a q
work b q
body a
burn 1
finish
body b
burn 1
finish
actor x
queue a 0
actor y
queue b 0
busy
";

/// What stands before the second instruction of what the two actors leave.
const BEGUN: &str = "cpus 1
workers 4
steps 1000
flushes 2
queue q max 1
work a q
work b q
body a
burn 1
finish
body b
burn 1
finish
actor played
queue b 0
";

/// With this capacity the play answers so, and leaves one of two ends, each with what running the text prints.
fn check_two<R: Threads + Wait + Clock + Sync + AllocGlobal + Abort>(
    rt: &R,
    capacity: u32,
    want: Result<(), PlayError>,
    ends: [(&str, &str); 2],
)
    requires { capacity ≤ MAX_LINES }
{
    let (result, left) = played(rt, TWO_ACTORS, capacity, 1, Vec::new(rt.alloc()));
    same(rt, capacity, result, want);
    let lines = printed(rt, rt.alloc(), &left);
    let is_one = ends.iter().any(|(end, prints)| {
        left.strip_prefix(BEGUN.as_bytes()) == Some(end.as_bytes())
            && lines.as_slice() == prints.as_bytes()
    });
    same(rt, capacity, is_one, true);
}

/// What stands behind that where all is left, each with what running the text prints.
const ENDS: [(&str, &str); 2] = [
    ("queue a 0\nbusy\n# 0 no\n", "0 no\n"),
    ("busy\nqueue a 0\n# 0 no\n", "0 no\n"),
];

#[test]
fn two_actors_at_once_leave_one_of_two_texts(rt: HostRuntime) {
    check_two(&rt, 10, Ok(()), ENDS);
    let fronts = [("queue a 0\n", ""), ("busy\n# 0 no\n", "0 no\n")];
    check_two(&rt, 2, Err(PlayError::Full), fronts);
}

/// Whether these bytes are a front of what the two actors leave.
fn is_front(taken: &[u8]) -> bool {
    let Some(end) = taken.strip_prefix(BEGUN.as_bytes()) else {
        return BEGUN.as_bytes().starts_with(taken);
    };
    let [(one, _), (other, _)] = ENDS;
    one.as_bytes().starts_with(end) || other.as_bytes().starts_with(end)
}

/// A writer that fails at this call, if there are so many, has a front of a text, and that is told.
fn check_failing<R: Threads + Wait + Clock + Sync + AllocGlobal + Abort>(
    rt: &R,
    failure: Failure,
    fails: usize,
) {
    let writer = failing_at(rt.alloc(), failure, fails);
    let (result, Output { taken, calls, .. }) = played(rt, TWO_ACTORS, 10, 1, writer);
    let want = if calls < fails {
        Ok(())
    } else {
        Err(PlayError::Write)
    };
    same(rt, fails, result, want);
    same(rt, fails, is_front(&taken), true);
}

#[test]
fn a_failing_writer_has_a_front_of_a_text(rt: HostRuntime) {
    for fails in 1..10 {
        check_failing(&rt, Failure::Error, fails);
        check_failing(&rt, Failure::TakesNone, fails);
    }
}

/// The text of sixteen actors that queue one work and ask.
fn sixteen_actors(rt: &impl Abort, alloc: Global) -> String {
    let mut text = String::from_str(
        alloc,
        "cpus 1\nworkers 4\nsteps 1000\nflushes 2\nqueue q max 1\nwork a q\nbody a\nburn 1\nfinish\n",
    )
    .expect(rt, "memory is left");
    for actor in 0..16 {
        let lines = format!(in alloc; "actor t{actor}\nqueue a 0\nbusy\n").expect(
            rt,
            "memory is left",
        );
        text.push_str(&lines).expect(rt, "memory is left");
    }
    text
}

/// How many lines of the text are this one.
fn lines_like(text: &[u8], line: &[u8]) -> usize {
    text.split(|byte| *byte == b'\n')
        .filter(|piece| *piece == line)
        .count()
}

/// How often 15 of sixteen actors are told that their work is queued already, and all that none is busy; and the bytes of these lines.
const ALL_TOLD: (usize, usize, usize) = (15, 16, 15 * 10 + 16 * 5);

/// With this capacity the sixteen actors' play answers so, and leaves one actor with so many lines, who queues the work first. Gives what
/// running that prints.
fn check_sixteen<R: Threads + Wait + Clock + Sync + AllocGlobal + Abort>(
    rt: &R,
    capacity: u32,
    want: Result<(), PlayError>,
    lines: usize,
) -> Vec<u8>
    requires { capacity ≤ MAX_LINES }
{
    let text = sixteen_actors(rt, rt.alloc());
    let (result, left) = played(rt, text.as_bytes(), capacity, 15, Vec::new(rt.alloc()));
    same(rt, capacity, result, want);
    let scenario = scenario_of(rt, rt.alloc(), &left);
    same(rt, capacity, scenario.actors.len(), 1);
    let given = &scenario.actors.first().expect(rt, "one actor").lines;
    same(rt, capacity, given.len(), lines);
    let first = given.first().map(|line| line.instr);
    same(rt, capacity, first, Some(Instr::Queue(WorkId(0), 0)));
    printed(rt, rt.alloc(), &left)
}

#[test]
fn sixteen_actors_at_once_leave_all_their_lines(rt: HostRuntime) {
    let _front = check_sixteen(&rt, 20, Err(PlayError::Full), 20);
    let lines = check_sixteen(&rt, 100, Ok(()), 32);
    let told = (
        lines_like(&lines, b"0 already"),
        lines_like(&lines, b"0 no"),
        lines.len(),
    );
    same(&rt, "all are told", told, ALL_TOLD);
}
