//! `Plain`: the simple machine, over vectors that are scanned. It is slow on purpose: other machines
//! are compared with it. `Records` is its data structure and knows nothing of instructions.
//!
//! Proved: plain vectors are such a structure. `Plain` is the machine over them.
#![tactic(auto)]

mod burning_heads;
mod records;
mod rest;

use cmwq_exec::Driven;
pub use records::Records;

/// The machine that carries out the instruction table over vectors, made at `load` and scanned.
pub type Plain = Driven<Records>;
