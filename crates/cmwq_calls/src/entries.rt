//! A history, printed a line an entry.

use cmwq_engine::Entry;
use cmwq_instr_words::InstrWords;
use cmwq_play::PlayError;
use cmwq_table::ReplyLine;
use cmwq_types::{Reply, Scenario};
use std::io;

/// Prints the history, whose entries came to these times.
pub(crate) fn print<R: Print>(
    rt: &R,
    scenario: &Scenario,
    history: &[Entry],
    times: &[u64],
) -> Result<(), PlayError> {
    for (entry, time) in history.iter().zip(times) {
        print_entry(rt, scenario, *entry, *time).map_err(|_| PlayError::Write)?;
    }
    Ok(())
}

/// Prints an entry, with its instruction as the listing spells it, and the time that its reply came at.
fn print_entry<R: Print>(rt: &R, scenario: &Scenario, entry: Entry, time: u64) -> io::Result<()> {
    let Entry {
        ticket,
        caller,
        instr,
        reply,
    } = entry;
    let spelled = InstrWords { scenario, instr };
    print!(rt; "{ticket} {caller} {spelled}: ")?;
    match reply {
        Reply::Queued => println!(rt; "Queued"),
        Reply::Done => println!(rt; "Done"),
        _ => print!(rt;
            "{}",
            ReplyLine {
                scenario,
                time,
                instr,
                reply,
            }
        ),
    }
}
