// Bytes: their classes, their case forms, and equal bytes; numbers in other widths.
#![tactic(auto)]

ghost use Rattle.std.specs.Prelude.{◌≡◌, get_or};
ghost use Rattle.octets.specs.Bytes.{lower, same_any_case, token};
ghost use Rattle.octets.specs.Inner.Tables.{class_of, Classes};
ghost use Rattle.octets.specs.Lists.{same};

mod widths;

pub use crate::widths::{from_byte, from_long, from_word, one_if, to_byte, to_long};

// "a table of 256 byte classes, one for each byte" (document 01): 1 token, 2 SP or HTAB, 3 any other of 33..126, 4 128 and up, 0 the rest.
const CLASSES: [u8; 256] = [
    0, 0, 0, 0, 0, 0, 0, 0, 0, 2, 0, 0, 0, 0, 0, 0, 0, 0, 0, 0, 0, 0, 0, 0, 0, 0, 0, 0, 0, 0, 0, 0,
    2, 1, 3, 3, 3, 1, 3, 1, 3, 3, 1, 1, 3, 1, 1, 3, 1, 1, 1, 1, 1, 1, 1, 1, 1, 1, 3, 3, 3, 3, 3, 3,
    3, 1, 1, 1, 1, 1, 1, 1, 1, 1, 1, 1, 1, 1, 1, 1, 1, 1, 1, 1, 1, 1, 1, 1, 1, 1, 1, 3, 3, 3, 3, 1,
    1, 1, 1, 1, 1, 1, 1, 1, 1, 1, 1, 1, 1, 1, 1, 1, 1, 1, 1, 1, 1, 1, 1, 1, 1, 1, 1, 3, 3, 3, 1, 0,
    4, 4, 4, 4, 4, 4, 4, 4, 4, 4, 4, 4, 4, 4, 4, 4, 4, 4, 4, 4, 4, 4, 4, 4, 4, 4, 4, 4, 4, 4, 4, 4,
    4, 4, 4, 4, 4, 4, 4, 4, 4, 4, 4, 4, 4, 4, 4, 4, 4, 4, 4, 4, 4, 4, 4, 4, 4, 4, 4, 4, 4, 4, 4, 4,
    4, 4, 4, 4, 4, 4, 4, 4, 4, 4, 4, 4, 4, 4, 4, 4, 4, 4, 4, 4, 4, 4, 4, 4, 4, 4, 4, 4, 4, 4, 4, 4,
    4, 4, 4, 4, 4, 4, 4, 4, 4, 4, 4, 4, 4, 4, 4, 4, 4, 4, 4, 4, 4, 4, 4, 4, 4, 4, 4, 4, 4, 4, 4, 4,
];

// The table, for whoever asks it more than once: a constant is made anew wherever it is named, all 256 bytes of it.
pub fn class_table() -> [u8; 256]
    ensures { Classes result }
{
    CLASSES
}

// The class of a byte, from the table.
pub fn class_in(table: &[u8; 256], b: u8) -> u8
    requires { Classes table.now }
    ensures { result ≡ class_of b }
{
    table[usize::from(b)]
}

// The byte at i, or 0 past the end: it spares its callers the length.
pub fn byte_at(s: &[u8], i: usize) -> u8
    ensures { result ≡ get_or s.now i 0 }
{
    s.get(i).copied().unwrap_or(0)
}

pub fn lower_of(b: u8) -> u8
    ensures { result ≡ lower b }
{
    b.to_ascii_lowercase()
}

pub fn same_bytes(a: &[u8], b: &[u8]) -> bool
    ensures { result ≡ same a.now b.now }
{
    a == b
}

// "in any case" (document 01): never-cut names, `SIP/2.0`.
pub fn same_letters(a: &[u8], b: &[u8]) -> bool
    ensures { result ≡ same_any_case a.now b.now }
{
    a.eq_ignore_ascii_case(b)
}

// One or more token bytes: a method.
pub fn is_token(table: &[u8; 256], s: &[u8]) -> bool
    requires { Classes table.now }
    ensures { result ≡ token s.now }
{
    !s.is_empty() && s.iter().all(|b| class_in(table, *b) == 1)
}
