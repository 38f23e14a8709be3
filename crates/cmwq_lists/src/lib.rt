//! Linked lists over one slab of nodes. Each list keeps work items in its own order. A work item's
//! number is the key of its node.
//!
//! Proved: the linked lists are finite maps with their first elements.
//! Not proved: their speed.
#![tactic(auto)]

mod finding;
mod link;
mod linking;
mod list_cell;
mod lists;
mod node;
pub mod ranks;

pub use lists::Lists;
pub use node::Node;
