//! The lines of replies, joined from parts that are made once.
//!
//! Proved: `ReplyLines::push`: the line of each reply has the bytes of its definition.
#![tactic(auto)]

mod block;
mod numbered;
mod reply_lines;
mod short;

pub use block::Block;
pub use reply_lines::ReplyLines;
