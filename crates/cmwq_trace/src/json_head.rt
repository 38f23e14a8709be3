//! What a trace in JSON begins with: the names of processes, and of the threads of works.
ghost use Rattle.cmwq_trace.specs.Json.{work_thread};
ghost use Rattle.cmwq_trace.specs.JsonParts.{cpus_behind, json_opening, work_behind, works_behind};
ghost use Rattle.cmwq_types.specs.Scenario.{work_at};
ghost use Rattle.std.specs.Prelude.{◌≡◌, Some, codes, length};

use crate::json_line::NamingFront;
use cmwq_slices::Half;
use cmwq_types::Scenario;
use std::fmt;

/// The first line, and all names that stand before the run.
#[derive(Clone, Copy)]
pub(crate) struct JsonHead<'a> {
    pub(crate) scenario: &'a Scenario,
}

impl fmt::Display for JsonHead<'_> {
    ghost output = { λ head. Some (json_opening head.scenario.now) };

    fn fmt<W: fmt::Write>(&self, f: &mut fmt::Formatter<W>) -> fmt::Result {
        let scenario = self.scenario;
        let works = process_front(1);
        let cpus = CpuNames { scenario };
        let unbound = process_front(2 + u32::from(scenario.cpus));
        let names = AllWorkNames { scenario };
        write!(
            f,
            "{{\"displayTimeUnit\":\"ms\",\"traceEvents\":[\n{works}works\"}}}}{cpus},\n{unbound}unbound\"}}}}{names}"
        )
    }
}

/// What the name of a process begins with.
fn process_front(process: u32) -> NamingFront
    ensures kind { result.kind.now ≡ codes "process_name" }
    ensures process { result.process ≡ process }
    ensures thread { result.thread ≡ 0 }
{
    NamingFront {
        kind: "process_name",
        process,
        thread: 0,
    }
}

/// What the name of a work's thread begins with.
fn thread_front(w: usize, half: Half) -> NamingFront
    ensures kind { result.kind.now ≡ codes "thread_name" }
    ensures process { result.process ≡ 1 }
    ensures thread { result.thread ≡ work_thread w half }
{
    let first = 2 * w as u128;
    let thread = match half {
        Half::Running => first + 1,
        Half::Pending => first + 2,
    };
    NamingFront {
        kind: "thread_name",
        process: 1,
        thread,
    }
}

/// The names of the CPUs' processes.
#[derive(Clone, Copy)]
struct CpuNames<'a> {
    scenario: &'a Scenario,
}

impl fmt::Display for CpuNames<'_> {
    ghost output = { λ names. Some (cpus_behind names.scenario.now.cpus) };

    fn fmt<W: fmt::Write>(&self, f: &mut fmt::Formatter<W>) -> fmt::Result {
        let scenario = self.scenario;
        for cpu in 0..scenario.cpus {
            let front = process_front(2 + u32::from(cpu));
            write!(f, ",\n{front}CPU {cpu}\"}}}}")?;
        }
        Ok(())
    }
}

/// The names of the works' threads.
#[derive(Clone, Copy)]
struct AllWorkNames<'a> {
    scenario: &'a Scenario,
}

impl fmt::Display for AllWorkNames<'_> {
    ghost output = { λ names. Some (works_behind names.scenario.now (length names.scenario.now.works)) };

    fn fmt<W: fmt::Write>(&self, f: &mut fmt::Formatter<W>) -> fmt::Result {
        let scenario = self.scenario;
        for w in 0..scenario.works.len() {
            let names = WorkNames { scenario, w };
            write!(f, "{names}")?;
        }
        Ok(())
    }
}

/// The names of a work's two threads.
#[derive(Clone, Copy)]
struct WorkNames<'a> {
    scenario: &'a Scenario,
    w: usize,
}

impl fmt::Display for WorkNames<'_> {
    ghost output = { λ names. Some (work_behind (work_at names.scenario.now names.w).name names.w) };

    fn fmt<W: fmt::Write>(&self, f: &mut fmt::Formatter<W>) -> fmt::Result {
        let name = self.scenario.work_name(self.w);
        let running = thread_front(self.w, Half::Running);
        let pending = thread_front(self.w, Half::Pending);
        write!(
            f,
            ",\n{running}{name}\"}}}},\n{pending}{name} pending\"}}}}"
        )
    }
}
