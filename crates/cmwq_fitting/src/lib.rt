//! The words that the grammar allows at a place of a text, and the nearest allowed word to a word that
//! isn't.
//!
//! Proved: the words that fit at a place, and the word that was probably meant, are as defined.
//! Not proved: that no other new name or number would fit.
#![tactic(auto)]

pub mod examples;
mod faults;
mod gap;
mod knowing;
mod laws;
mod meaning;
mod near_misses;
mod nearness;
mod numbers;
mod offer;
mod shortening;

pub use faults::{TextFault, text_fault};
pub use gap::Gap;
pub use knowing::{is_known, known_words, last_body};
pub use laws::{
    limits_are_those_of_the_place, lines_end_where_texts_go_on, queues_are_declared_by_their_lines,
    words_behind_which_a_line_may_end_fit,
};
pub use meaning::{meant_among, meant_at, nearest_first};
pub use nearness::nearest;
pub use numbers::Limits;
pub use offer::{Offer, offer_at};
pub use shortening::front_of;
