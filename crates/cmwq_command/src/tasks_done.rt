//! The commands that read one input and write one output: what each of them does.
ghost use Rattle.cmwq_command.specs.Tasks.{IsTaskFault, IsGoalOf, IsWrittenBy};
ghost use Rattle.cmwq_play.specs.Commands.{Answers, Reads, Writes};
ghost use Rattle.std.specs.Prelude.{◌≡◌, false};

use cmwq_draw::draw;
use cmwq_explain::why;
use cmwq_kernel_trace::trace_text;
use cmwq_play::{PlayError, Sink, Source, from_image, list_text, run};
use cmwq_reports::TraceForm;
use cmwq_settle::{run_settled, settle_text};
use cmwq_tasks::{RunKind, Task};
use cmwq_tell::run_told;
use cmwq_times::times;
use cmwq_trace::{trace_json, trace_lines};
use std::alloc::Global;

/// Does the task with what the reader has; what comes of it goes to the writer.
///
/// Each kind of task has a function of its own, which this calls, and whose clauses hold: what the input comes to, which of its
/// faults are told, and what is written.
pub fn do_task<R: Source, W: Sink>(
    task: Task<'_>,
    alloc: Global,
    reader: &mut R,
    writer: &mut W,
) -> Result<(), PlayError>
    requires reader { R.failed reader.old ≡ false }
    requires writer { W.failed writer.old ≡ false }
    ensures reads { Reads (R.remaining reader.old) (R.remaining reader.new) (R.failed reader.new) result }
    ensures answers { Answers (IsGoalOf task.entry) (IsTaskFault task.entry) (R.remaining reader.old) result }
    ensures writes { Writes (IsWrittenBy task.entry (R.remaining reader.old)) (W.contents writer.old) (W.contents writer.new) (W.failed writer.new) result }
{
    match task {
        Task::Run(kind) => match kind {
            RunKind::Plain => run(alloc, reader, writer),
            RunKind::Settled => run_settled(alloc, reader, writer),
            RunKind::Told => run_told(alloc, false, reader, writer),
            RunKind::ToldSettled => run_told(alloc, true, reader, writer),
        },
        Task::Settle => settle_text(alloc, reader, writer),
        Task::List => list_text(alloc, reader, writer),
        Task::Show => from_image(alloc, reader, writer),
        Task::Draw(drawing) => draw(alloc, drawing, reader, writer),
        Task::Why(inquiry) => why(alloc, inquiry, reader, writer),
        Task::Times(asked) => times(alloc, reader, writer, asked),
        Task::Trace(TraceForm::Json) => trace_json(alloc, reader, writer),
        Task::Trace(TraceForm::Lines) => trace_lines(alloc, reader, writer),
        Task::Trace(TraceForm::Text) => trace_text(alloc, reader, writer),
    }
}
