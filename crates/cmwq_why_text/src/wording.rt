//! What the text of a reason is read off.

use std::alloc::Global;

/// A machine of which is told why works aren't further in it, and what the texts are allocated with.
#[derive(Drop)]
pub struct Wording<'a, R> {
    /// What the texts are allocated with.
    pub alloc: Global,
    /// The machine.
    pub machine: &'a R,
}
