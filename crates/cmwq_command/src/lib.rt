//! Commands on files: how a request is carried out.
//!
//! Proved: `carry_out`: the words do to both streams what is defined.
//! Not proved: real files and terminals, and what `asm` and `new` write into files.
#![tactic(auto)]

mod advising;
mod carrying;
mod exploring;
mod file_store;
mod standard_input;
mod strict;
mod sweeping;
mod tasks_done;
mod undone;

pub use advising::{advise, remark};
pub use carrying::{ProgramSetting, answer_request, carry_out};
pub use cmwq_debug_session::Manner;
pub use exploring::UNDONE;
pub use file_store::{Disk, FileStore, Opened};
pub use standard_input::reads_input;
pub use tasks_done::do_task;
pub use undone::advise_undone;
