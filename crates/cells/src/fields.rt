// The fields of an image: numbers of one, two and four bytes, each read where it stands, or refused. The bounds on places in the `requires`
// here and in the crates above only keep sums of places from overflowing; they are far above any place of an image, and fall from layer to layer.
#![tactic(auto, unfolding(crate::specs::Inner::Places::whole, crate::specs::Inner::Places::u8, crate::specs::Inner::Places::u16, crate::specs::Inner::Places::u32, crate::specs::Inner::Places::limited, crate::specs::Inner::Places::counted, crate::specs::Inner::Places::exactly))]

ghost use Rattle.std.specs.Prelude.{◌≡◌, ◌+◌, ◌≤◌, ◌<◌, length};
ghost use Rattle.cells.specs.Inner.Out.{must as must_hold};
ghost use Rattle.cells.specs.Inner.Places.{whole as is_whole, u8, u16, u32, limited, counted, exactly, word, long};
ghost use Rattle.cells.specs.Inner.Answers.{field_out, number_of};

use crate::{Fault, Refusal};

// Two bytes of the image, as a number.
pub fn number(s: &[u8], at: usize) -> usize
    requires { at + 2 ≤ length s.now }
    ensures { (result ≡ word s.now at) × (result < 65536) }
{
    usize::from(u16::from_be_bytes([s[at], s[at + 1]]))
}

// Refused with a fault at a place, unless it holds.
pub fn must(holds: bool, fault: Fault, place: usize) -> Result<(), Refusal>
    ensures { field_out result ≡ must_hold holds (number_of fault) place }
{
    if holds {
        Ok(())
    } else {
        Err(Refusal { fault, place })
    }
}

// A field of k bytes at `at` lies whole in the image.
pub(crate) fn whole(s: &[u8], at: usize, k: usize) -> Result<(), Refusal>
    requires { at + k ≤ 300000 }
    ensures { field_out result ≡ is_whole s.now at k }
{
    must(at + k <= s.len(), Fault::TooShort, s.len())
}

pub fn byte_at(s: &[u8], at: usize) -> Result<usize, Refusal>
    ensures { field_out result ≡ u8 s.now at }
{
    must(at < s.len(), Fault::TooShort, s.len())?;
    Ok(usize::from(s[at]))
}

pub fn word_at(s: &[u8], at: usize) -> Result<usize, Refusal>
    requires { at ≤ 200000 }
    ensures { field_out result ≡ u16 s.now at }
{
    whole(s, at, 2)?;
    Ok(number(s, at))
}

// A byte that is at most `most`.
pub fn up_to(s: &[u8], at: usize, most: usize) -> Result<usize, Refusal>
    ensures { field_out result ≡ limited s.now at most }
{
    let v = byte_at(s, at)?;
    must(v <= most, Fault::OutOfRange, at)?;
    Ok(v)
}

// A count that is at most `most`.
pub fn count_at(s: &[u8], at: usize, most: usize) -> Result<usize, Refusal>
    requires { at ≤ 200000 }
    ensures { field_out result ≡ counted s.now at most }
{
    let v = word_at(s, at)?;
    must(v <= most, Fault::OutOfRange, at)?;
    Ok(v)
}

// A number that has to be `v`.
pub fn exactly_at(s: &[u8], v: usize, at: usize) -> Result<usize, Refusal>
    requires { at ≤ 200000 }
    ensures { field_out result ≡ exactly s.now v at }
{
    let i = word_at(s, at)?;
    must(i == v, Fault::OutOfRange, at)?;
    Ok(i)
}

// Four bytes of the image, as a number: the priority of the criterion at a place.
pub fn priority(s: &[u8], at: usize) -> usize
    requires { at + 4 ≤ length s.now }
    ensures { (result ≡ long s.now at) × (result < 4294967296) }
{
    u32::from_be_bytes([s[at], s[at + 1], s[at + 2], s[at + 3]]) as usize
}

pub fn long_at(s: &[u8], at: usize) -> Result<usize, Refusal>
    requires { at ≤ 200000 }
    ensures { field_out result ≡ u32 s.now at }
{
    whole(s, at, 4)?;
    Ok(priority(s, at))
}
