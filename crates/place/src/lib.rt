// Where a pattern matches a text: "the smallest start, and of those the longest length" (document 02, change request 2).
#![tactic(auto)]

ghost use Rattle.std.specs.Prelude.{◌≡◌, Bool, List, ℕ};
ghost use Rattle.machine.specs.Inner.Machine.{Closed};
ghost use Rattle.pattern.specs.Inner.Prepared.{Ready};
ghost use Rattle.place.specs.Inner.Texts.{place_text};

use machine::{Shape, leftmost};
use part::longest;
use pattern::Prepared;

// Whether there is one, the place of its first byte, and how many bytes it has; 0 and 0 where there is none.
#[derive(Clone, Copy)]
pub struct Place {
    pub found: bool,
    pub start: usize,
    pub size: usize,
}

const NOWHERE: Place = Place {
    found: false,
    start: 0,
    size: 0,
};

// Where the prepared pattern matches the text: one scan from the end finds the start, one forward the length.
pub fn locate(h: Shape, sets: &[[u64; 4]; 60], before: &[u64; 60], text: &[u8]) -> Place
    requires { Closed h before.now }
    ensures { (fold : Bool) (p : List ℕ) → Ready fold p h sets.now before.now → result ≡ place_text fold p text.now }
{
    let start = leftmost(h, sets, before, text);
    if text.len() < start {
        return NOWHERE;
    }
    let size = longest(h, sets, before, text, start);
    Place {
        found: true,
        start,
        size,
    }
}

// The same, of a pattern that is lent with all that was made of it.
pub fn find(pattern: &Prepared<'_>, text: &[u8]) -> Place
    ensures { result ≡ place_text pattern.now.for_names pattern.now.bytes.now text.now }
{
    locate(pattern.shape, pattern.sets, pattern.before, text)
}
