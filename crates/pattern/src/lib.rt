// Patterns on texts (document 01, "Patterns (source 001)"): a pattern is prepared once, and whether and where it matches a text is told.
#![tactic(auto)]

ghost use Rattle.std.specs.Prelude.{◌≡◌, Bool, List, ℕ};
ghost use Rattle.machine.specs.Inner.Machine.{Closed};
ghost use Rattle.pattern.specs.Inner.Answers.{meets_text, first_fit};
ghost use Rattle.pattern.specs.Inner.Prepared.{Ready};

mod edition1;
mod fold;
mod prepared;

pub use crate::edition1::{is_loaded, load};
pub use crate::prepared::{PatternPlaces, Prepared};
use machine::{Shape, found, leftmost};

// The smallest place at which a part of the text that fits the prepared pattern begins, or one above the text's length.
pub fn first_match(h: Shape, sets: &[[u64; 4]; 60], before: &[u64; 60], text: &[u8]) -> usize
    requires { Closed h before.now }
    ensures { (fold : Bool) (p : List ℕ) → Ready fold p h sets.now before.now → result ≡ first_fit fold p text.now }
{
    leftmost(h, sets, before, text)
}

// Whether the prepared pattern matches the text.
pub fn test(h: Shape, sets: &[[u64; 4]; 60], before: &[u64; 60], text: &[u8]) -> bool
    requires { Closed h before.now }
    ensures { (fold : Bool) (p : List ℕ) → Ready fold p h sets.now before.now → result ≡ meets_text fold p text.now }
{
    found(h, sets, before, text)
}
