// Patterns of edition 1 as machines: a position for each element.
ghost use Rattle.std.specs.Prelude.{◌≡◌, true, ◌&&◌, ◌+◌, ◌^◌, ◌<◌, ◌≤◌, length, set};
ghost use Rattle.std.specs.Int.Bits.{bit_or};
ghost use Rattle.octets.specs.Lists.{pick};
ghost use Rattle.basic.specs.Inner.Drawn.{drawn};
ghost use Rattle.basic.specs.Pattern.{Atom, byte};
ghost use Rattle.pattern.specs.Inner.Prepared.{may_lead, mark as marked, before_at, set_as, shape_by, takes_part, LaidAt, Ready};

use crate::fold::{folded, folded_word};
use basic::{atom_at, is_plain, peek_at, star_at, start_at, stop_at};
use machine::Shape;

// Of the elements before the position `at`: those that may come right before it, and those that may come first, with `at` among
// them where all before it may be left out. So an element that does not repeat leaves the latter alone.
#[derive(Clone, Copy)]
pub struct Marks {
    pub at: usize,
    pub run: u64,
    pub lead: u64,
}

// Before the first element.
const NO_MARKS: Marks = Marks {
    at: 0,
    run: 0,
    lead: 1,
};

// The machine that takes no part.
const NO_SHAPE: Shape = Shape {
    size: 0,
    start: 0,
    inner: 0,
    ends: 0,
    stops: 0,
    whole: false,
    head: false,
    tail: false,
    middle: false,
};

fn with_position(m: u64, at: usize) -> u64
    requires { at < 64 }
    ensures { result ≡ bit_or m (2 ^ at) }
{
    m | 1 << at
}

impl Marks {
    // What may come right before the element at this position.
    fn before(self, repeats: bool) -> u64
        requires { self.at < 64 }
        ensures { result ≡ before_at self repeats }
    {
        if repeats {
            return with_position(self.run, self.at);
        }
        self.run
    }

    // Whether all elements before this position may be left out.
    fn may_lead(self) -> bool
        requires { self.at < 64 }
        ensures { result ≡ may_lead self }
    {
        self.lead >> self.at & 1 == 1
    }

    // The run and the lead with this element.
    fn run_with(self, repeats: bool) -> u64
        requires { self.at < 64 }
        ensures { result ≡ pick repeats (bit_or self.run (2 ^ self.at)) (2 ^ self.at) }
    {
        if repeats {
            return with_position(self.run, self.at);
        }
        with_position(0, self.at)
    }

    fn lead_with(self, repeats: bool) -> u64
        requires { self.at < 60 }
        ensures { result ≡ pick (repeats && may_lead self) (bit_or self.lead (2 ^ (self.at + 1))) self.lead }
    {
        if repeats & self.may_lead() {
            return with_position(self.lead, self.at + 1);
        }
        self.lead
    }

    // One element more.
    fn with(self, repeats: bool) -> Marks
        requires { self.at < 60 }
        ensures { result ≡ marked self repeats }
    {
        let run = self.run_with(repeats);
        let lead = self.lead_with(repeats);
        Marks {
            at: self.at + 1,
            run,
            lead,
        }
    }

    // The machine of all elements, with the anchors `^` and `$`.
    fn shape(self, left: bool, right: bool) -> Shape
        requires { self.at ≤ 60 }
        ensures { result ≡ shape_by self left right }
    {
        let start = self.lead % (1 << self.at);
        let free = self.may_lead();
        let inner = unless(left, start);
        let stops = unless(right, self.run);
        Shape {
            size: self.at,
            start,
            inner,
            ends: self.run,
            stops,
            whole: free,
            head: free & !right,
            tail: free & !left,
            middle: free & !left & !right,
        }
    }
}

// The set of an atom that was read, on a name (fold) or as written.
fn set_as(fold: bool, set: [u64; 4]) -> [u64; 4]
    ensures { (a : Atom) → set ≡ drawn true a → result ≡ set_as fold a }
{
    if fold {
        return folded(set);
    }
    set
}

// Lays the set of one byte where it is to stand: made as a value it would be written to memory and read again.
fn lay_byte(c: u8, fold: bool, sets: &mut [[u64; 4]; 60], at: usize)
    requires { (at < 60) × (length sets.old ≡ 60) }
    ensures { sets.new ≡ set sets.old at (set_as fold (byte c)) }
{
    let none = [0u64; 4];
    let w = c as usize / 64;
    sets[at] = none;
    sets[at][w] = 1 << (c % 64);
    if fold {
        sets[at][1] = folded_word(sets[at][1]);
    }
}

// Lays the set of the atom that begins at i, and answers where the atom ends, or lays nothing. Nearly all atoms are plain bytes.
fn lay_atom(
    s: &[u8],
    i: usize,
    first: bool,
    fold: bool,
    sets: &mut [[u64; 4]; 60],
    at: usize,
) -> Option<usize>
    requires { (i < length s.now) × (at < 60) × (length sets.old ≡ 60) }
    ensures { LaidAt fold first s.now i at result sets.old sets.new }
{
    let b = s[i];
    if is_plain(b) {
        lay_byte(b, fold, sets, at);
        return Some(i + 1);
    }
    let a = atom_at(s, i, first, true)?;
    let set = set_as(fold, a.set);
    sets[at] = set;
    Some(a.end)
}

// The positions of a mask, or none where an anchor stands.
fn unless(anchored: bool, positions: u64) -> u64
    ensures { result ≡ pick anchored 0 positions }
{
    if anchored {
        return 0;
    }
    positions
}

// Reads a pattern into the lent places in one go, element by element, once for many texts; fold: for names. A refused one gives a machine
// that takes no part, and what the lent places then hold means nothing.
pub fn load(s: &[u8], fold: bool, sets: &mut [[u64; 4]; 60], before: &mut [u64; 60]) -> Shape
    requires { (length sets.old ≡ 60) × (length before.old ≡ 60) }
    ensures { Ready fold s.now result sets.new before.new }
{
    if s.len() == 0 {
        return NO_SHAPE;
    }
    let stop = stop_at(s);
    let mut i = start_at(s);
    let mut first = true;
    let mut m = NO_MARKS;
    while i < stop {
        let at = m.at;
        if at == 60 {
            return NO_SHAPE;
        }
        let Some(end) = lay_atom(s, i, first, fold, sets, at) else {
            return NO_SHAPE;
        };
        first = false;
        // Two ways, not one with a flag: the next element then need not wait until this byte is read.
        if star_at(s, end, stop) {
            before[at] = m.before(true);
            m = m.with(true);
            i = end + 1;
        } else {
            before[at] = m.before(false);
            m = m.with(false);
            i = end;
        }
    }
    let left = peek_at(s, 0) == 94;
    m.shape(left, i < s.len())
}

// Whether the string that was loaded is a pattern (`Ready`, `told`): any other gave the machine that takes no part.
pub fn is_loaded(h: Shape) -> bool
    ensures { result ≡ takes_part h }
{
    (h.size != 0) | h.whole
}
