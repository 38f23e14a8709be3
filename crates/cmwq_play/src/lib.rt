//! The commands over readers and writers; and tellers, which print something before, during and after a
//! run.
//!
//! Proved: `run`, `list_text`, `to_image` and `from_image` write exactly the defined bytes, or return the fault.
#![tactic(auto)]

mod framed;
mod images;
mod listing_text;
mod reading;
mod replies;
mod running;
mod session;
mod teller;

pub use cmwq_streams::{BlockWriter, Marked, PlayError, Sink, Source, put_all};
pub use framed::{Framed, load_and_frame};
pub use images::{from_image, to_image};
pub use listing_text::{list_text, write_listing};
pub use reading::{empty_chunk, read_some, read_text, read_whole};
pub use running::{judge, load_and_tell, print_actor, run, tell_run};
pub use session::Session;
pub use teller::Teller;
