// Calls for tests and measures alone: patterns on a block of lines, how many parts a request has, and where its head ends.
#![tactic(auto)]

mod blocks;
mod counts;

pub use crate::blocks::{lines_as_patterns, pattern_lines};
pub use crate::counts::{request_head, request_parts};
