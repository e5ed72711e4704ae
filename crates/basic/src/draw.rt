// The sets of atoms. Where none are asked for they stay empty, so that a pattern can be judged by the same reader.
ghost use Rattle.std.specs.Prelude.{◌≡◌, false, List, [], ◌∷◌, ◌++◌};
ghost use Rattle.basic.specs.Pattern.{Range, byte, dot, list};
ghost use Rattle.basic.specs.Inner.Drawn.{drawn};

use crate::sets::{add_range, only, others};

// A list's set with one range more, where sets are asked for.
pub(crate) fn widen(build: bool, set: [u64; 4], lo: u8, hi: u8) -> [u64; 4]
    ensures { (l : List Range) → set ≡ drawn build (list false l) → result ≡ drawn build (list false (l ++ (record { lo = lo; hi = hi } ∷ []))) }
{
    if build {
        return add_range(set, lo, hi);
    }
    set
}

// A closed list's set, from that of its ranges.
pub(crate) fn closed(build: bool, negated: bool, set: [u64; 4]) -> [u64; 4]
    ensures { (l : List Range) → set ≡ drawn build (list false l) → result ≡ drawn build (list negated l) }
{
    if build & negated {
        return others(set);
    }
    set
}

pub(crate) fn lone(build: bool, c: u8) -> [u64; 4]
    ensures { result ≡ drawn build (byte c) }
{
    let none = [0u64; 4];
    if build {
        return only(c);
    }
    none
}

pub(crate) fn any(build: bool) -> [u64; 4]
    ensures { result ≡ drawn build dot }
{
    let none = [0u64; 4];
    if build {
        return others(none);
    }
    none
}
