//! The binary image of a scenario, written and read field by field.
//!
//! Proved: `write` and `read`: reading what was written gives the same scenario. Faults are found from the left.
//! Not proved: the texts of faults.
#![tactic(auto)]

mod error;
mod fields_left;
mod head;
mod image_parts;
mod image_reading;
pub mod laws;
mod tags;
mod version;
mod word;
mod writing;

pub use error::ImageError;
pub use image_reading::read;
pub use version::{FIRST_VERSION, SECOND_VERSION, THIRD_VERSION, VERSION};
pub use writing::write;
