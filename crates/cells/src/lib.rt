// Reads the cells of a profile image: numbers of one, two and four bytes, and the strings that they name.
#![tactic(auto)]

ghost use Rattle.std.specs.Prelude.{◌≡◌};
ghost use Rattle.cells.specs.Inner.Answers.{number_of};

mod fields;
mod string_table;

pub use crate::fields::{
    byte_at, count_at, exactly_at, long_at, must, number, priority, up_to, word_at,
};
pub use crate::string_table::{StringTable, judge_strings, strings, text};

// Why an image is refused. Each has the number of the paper.
#[derive(Clone, Copy)]
pub enum Fault {
    TooLong = 1,
    TooShort = 2,
    Trailing = 3,
    OutOfRange = 4,
    WrongString = 5,
    RepeatedPriority = 6,
}

impl From<Fault> for u32 {
    ghost from_gives = { λ fault number. number ≡ number_of fault };

    fn from(fault: Fault) -> u32 {
        fault as u32
    }
}

// A refusal: the fault, and the place of its first byte.
#[derive(Clone, Copy)]
pub struct Refusal {
    pub fault: Fault,
    pub place: usize,
}

// What a string may be used for: as a RequestURI or a server, as a Method, as a pattern.
#[derive(Clone, Copy, Default)]
pub struct Suits {
    pub server: bool,
    pub method: bool,
    pub pattern: bool,
}
