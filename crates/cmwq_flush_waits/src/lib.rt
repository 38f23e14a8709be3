//! What a flush waits for, computed from a machine, as text.
//!
//! Proved: the lines about a flush have the bytes of their definition.
#![tactic(auto)]

mod flush;
pub mod laws;
mod needs;
mod reaching;
mod telling_flushes;

pub use flush::flush_text;
