// Scans operators' XML (change request 3): whole, or wrong at a place.
#![tactic(auto)]

mod points;
mod scanner;
mod tags;

pub use crate::scanner::scan_text;
pub use crate::tags::{Tag, end_tag_of};
