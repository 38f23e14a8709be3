//! Cycles of callers, each of which begins only after the one before has ended.
//!
//! Proved: `find_ring` returns pairs that form a cycle, or that there is no cycle.
#![tactic(auto)]

mod examples;
mod rings;

pub use examples::{
    a_line_is_no_ring, a_pair_of_one_is_a_ring, three_wait_in_a_circle, two_wait_for_each_other,
    two_ways_to_one_are_no_ring,
};
pub use rings::find_ring;
