//! Laws on for which work items the others waited.
//!
//! Proved: laws: counts never fall, and grow only while an instance waits. Each waiting instance is counted. Nobody is blamed only for a freeze or for lack of memory.
#![tactic(auto)]

pub mod laws;
pub mod premises;
