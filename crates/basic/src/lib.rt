// Basic regular expressions (document 01, "Patterns (source 001)"): a string is read as one, and whether it is one is told.
#![tactic(auto)]

ghost use Rattle.std.specs.Prelude.{◌≡◌};
ghost use Rattle.basic.specs.Inner.Judged.{is_pattern};

mod draw;
mod reader;
mod sets;

use crate::reader::behind;
pub use crate::reader::{atom_at, is_plain, peek_at, star_at, start_at, stop_at};

// Whether a string is a pattern. It is read once, and no set is made.
pub fn is_pattern(s: &[u8]) -> bool
    ensures { result ≡ is_pattern s.now }
{
    if s.len() == 0 {
        return false;
    }
    let stop = stop_at(s);
    let mut i = start_at(s);
    let mut first = true;
    let mut n: usize = 0;
    while i < stop {
        if n == 60 {
            return false;
        }
        let Some(a) = atom_at(s, i, first, false) else {
            return false;
        };
        let repeats = star_at(s, a.end, stop);
        i = behind(a.end, repeats);
        first = false;
        n += 1;
    }
    true
}
