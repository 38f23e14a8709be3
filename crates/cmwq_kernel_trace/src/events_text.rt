//! The text of events, written a line at a time.
ghost use Rattle.cmwq_kernel_trace.specs.KernelText.{event_line, text_head};
ghost use Rattle.cmwq_streams.specs.Blocks.{Sends, SendsFront, SharesSink, sink};
ghost use Rattle.cmwq_streams.specs.Sending.{IsSendError};
ghost use Rattle.std.specs.List.{flat_map};
ghost use Rattle.std.specs.Prelude.{◌≡◌, ◌++◌, ◌↔◌, Err, IfErr, OnErr, OnOk, false, length, true};

use crate::event_line::{EventLine, TextHead};
use cmwq_events::KernelEvent;
use cmwq_streams::{BlockWriter, PlayError, Sink};
use cmwq_types::Scenario;

/// Writes the text of a run with these events, on so many CPUs: a line at a time, so that no more of it is kept than a block. The errors are
/// those of the writer's other calls; what went out then is a front of the text.
pub(crate) fn write_text<W: Sink>(
    scenario: &Scenario,
    events: &[KernelEvent],
    cpus: u8,
    lines: &mut BlockWriter<'_, W>,
) -> Result<(), PlayError>
    requires sound { W.failed (sink lines.old) ≡ false }
    ensures same { SharesSink lines.old lines.new }
    ensures ok { OnOk result (Sends W.contents lines.old lines.new (text_head (length events.now) cpus ++ flat_map (event_line scenario.now) events.now)) }
    ensures err { OnErr result (SendsFront W.contents lines.old lines.new (text_head (length events.now) cpus ++ flat_map (event_line scenario.now) events.now)) }
    ensures failed { (result ≡ Err PlayError.Write) ↔ (W.failed (sink lines.new) ≡ true) }
    ensures why { IfErr result (λ error. IsSendError error) }
{
    let head = TextHead {
        events: events.len(),
        cpus,
    };
    write!(lines, "{head}")?;
    for event in events {
        let line = EventLine {
            scenario,
            event: *event,
        };
        write!(lines, "{line}")?;
    }
    Ok(())
}
