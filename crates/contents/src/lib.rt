// What stands in a request's fields and body: the values of a field, reduced and cut at commas, and the lines of a body. The definitions
// stand in specs/.
#![tactic(auto)]

mod body_lines;
mod description;
mod names;
mod pieces;

pub use crate::body_lines::{next_field_line, next_line};
pub use crate::description::is_description;
pub use crate::names::{as_matched, long_names, never_cut};
pub use crate::pieces::{next_cut, next_value, normalise};

// A piece of a value, trimmed: it stands from start to end; the next one is to be looked for at next, if that is not past the value's end.
#[derive(Clone, Copy)]
pub struct Piece {
    pub start: usize,
    pub end: usize,
    pub next: usize,
}

// A line of a body. One that is a field has its type, a byte, at start, and its value from value to end. The next line starts at next.
#[derive(Clone, Copy)]
pub enum BodyLine {
    Typed {
        start: usize,
        value: usize,
        end: usize,
        next: usize,
    },
    Other {
        next: usize,
    },
    Done,
}

// A line of a body that is a field: its type, one byte, and its value. Behind it the next line starts at `next`.
#[derive(Clone, Copy)]
pub struct FieldLine<'a> {
    pub kind: &'a [u8],
    pub value: &'a [u8],
    pub next: usize,
}

// A value that a reduced value is cut into. The next one is to be looked for at `next`.
#[derive(Clone, Copy)]
pub struct CutValue<'a> {
    pub bytes: &'a [u8],
    pub next: usize,
}
