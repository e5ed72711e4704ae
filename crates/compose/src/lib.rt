// What is composed from operators' XML (change request 3): values, strings, and the groups of a row.
#![tactic(auto)]

mod groups;
mod strings;
mod telling;
mod values;

pub use crate::groups::{Groups, with_group};
pub use crate::strings::{add_text, find_text};
pub use crate::telling::{Value, pass_value};
pub use crate::values::value_of;
