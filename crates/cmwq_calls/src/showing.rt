//! Prints scenarios, lines and bytes.

use cmwq_list::list;
use cmwq_play::PlayError;
use cmwq_types::Scenario;
use std::alloc::Global;
use std::fmt::Display;
use std::io;
use std::io::Write;

/// Prints a line. It takes no memory.
pub(crate) fn say<R: Print, D: Display + Drop>(rt: &R, line: D) -> Result<(), PlayError> {
    rt.println(line).map_err(|_failed| PlayError::Write)
}

/// Prints a scenario by its listing, which takes memory.
pub(crate) fn show_scenario<R: Print>(
    rt: &R,
    alloc: Global,
    scenario: &Scenario,
) -> Result<(), PlayError> {
    let text = list(alloc, scenario)?;
    show_bytes(rt, &text)
}

/// Prints bytes as they are.
pub(crate) fn show_bytes<R: Print>(rt: &R, bytes: &[u8]) -> Result<(), PlayError> {
    rt.write_all(bytes).map_err(|_failed| PlayError::Write)
}

/// A writer that prints what it takes.
#[derive(Drop)]
pub(crate) struct Printer<'r, R> {
    pub(crate) rt: &'r R,
}

impl<R: Print> Write for Printer<'_, R> {
    fn write(&mut self, buf: &[u8]) -> io::Result<usize> {
        self.rt.write_some(buf)
    }

    fn flush(&mut self) -> io::Result<()> {
        Ok(())
    }
}
