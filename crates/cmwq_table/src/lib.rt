//! The instruction table: what each instruction does and replies; and the trait of a machine that
//! follows it.
//!
//! Proved: nineteen laws on every run of every valid scenario. In every state, an instruction changes what its reply says and nothing else. The line of a reply has the bytes of its definition.
#![tactic(auto)]

mod equality;
pub mod laws;
mod machine;
mod reads;
mod reply_line;
mod state;
mod view;

pub use machine::{Happened, LoadError, Machine, Went};
pub use reads::Reads;
pub use reply_line::{PlaceWords, ReplyLine, RunWords, WorkerWords, is_silent, refusal_name};
pub use state::{FlushTarget, Pending, Running};
pub use view::{IdleWorker, View};
