//! Laws on where the time of work items went.
//!
//! Proved: laws: each line accounts for all the time of its instance. What finishes has burned and slept its body. Sums agree, and each request has its line.
#![tactic(auto)]

pub mod laws;
pub mod premises;
