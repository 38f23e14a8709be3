//! Questions that `why` answers. Types alone.
//!
//! Proved: nothing. It has types only: the options of `why`.
#![tactic(auto)]

mod question;

pub use question::{Inquiry, Looks, Question};
