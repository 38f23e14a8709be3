//! Readers and writers that remember a failure, and the reason why a command ended early.
//!
//! Proved: what reaches a writer, also if the writer fails.
#![tactic(auto)]

mod block_writer;
mod error;
mod sending;
mod stream;

pub use block_writer::BlockWriter;
pub use error::PlayError;
pub use sending::put_all;
pub use stream::{Marked, Sink, Source};
