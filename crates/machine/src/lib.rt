// The matcher: a machine of at most 60 positions, a bit for each. It knows no edition of patterns.
#![tactic(auto)]

ghost use Rattle.std.specs.Prelude.{◌≡◌, true, false, not, ◌||◌, [], ◌+◌, ◌<◌, ◌≤◌, eqb, get_or, length};
ghost use Rattle.std.specs.Int.Bits.{bit_and};
ghost use Rattle.octets.specs.Lists.{pick};
ghost use Rattle.octets.specs.Inner.Masks.{Below};
ghost use Rattle.machine.specs.Inner.Machine.{Closed, Stepped, SomeMet, Leftmost, Found, Only, Shut, LastMet, Passed, first_mask, last_mask, null_at, null_somewhere, has, machine_of};

// How many positions there are, which the matching need not ask (`Closed`); which of them may begin a part, at the text's start or
// elsewhere; which may end one, at the text's end or elsewhere; and whether the empty part fits: as the whole text, at its start, at its
// end, or between.
#[derive(Clone, Copy)]
pub struct Shape {
    pub size: usize,
    pub start: u64,
    pub inner: u64,
    pub ends: u64,
    pub stops: u64,
    pub whole: bool,
    pub head: bool,
    pub tail: bool,
    pub middle: bool,
}

// Positions that are live before a byte, and those that may stand before one of them.
#[derive(Clone, Copy)]
pub struct Front {
    pub live: u64,
    pub next: u64,
}

// Whether the set of position p has the byte b.
fn has(sets: &[[u64; 4]; 60], p: usize, b: u8) -> bool
    requires { p < 60 }
    ensures { result ≡ has sets.now p b }
{
    let w = (b / 64) as usize;
    let k = b % 64;
    (sets[p][w] >> k) & 1 == 1
}

// Of the candidates, the positions that meet the byte b. Only the candidates are looked at.
pub fn step(sets: &[[u64; 4]; 60], before: &[u64; 60], candidates: u64, b: u8) -> Front
    requires { Below 60 candidates }
    ensures { Stepped sets.now before.now candidates b 0 result.live result.next }
{
    let mut left = candidates;
    let mut live: u64 = 0;
    let mut next: u64 = 0;
    while left != 0 {
        let p = u64::trailing_zeros(left) as usize;
        left &= left - 1;
        if has(sets, p, b) {
            live |= 1 << p;
            next |= before[p];
        }
    }
    Front { live, next }
}

// Whether some candidate meets the byte b.
fn is_met(sets: &[[u64; 4]; 60], candidates: u64, b: u8) -> bool
    requires { Below 60 candidates }
    ensures { SomeMet sets.now candidates b result }
{
    let mut left = candidates;
    while left != 0 {
        let p = u64::trailing_zeros(left) as usize;
        if has(sets, p, b) {
            return true;
        }
        left &= left - 1;
    }
    false
}

impl Shape {
    // The positions that may end a part, at the text's end or elsewhere.
    pub fn last_of(self, end: bool) -> u64
        ensures { result ≡ last_mask self end }
    {
        if end { self.ends } else { self.stops }
    }

    // The positions that may begin one, at the text's start or elsewhere.
    pub fn first_of(self, start: bool) -> u64
        ensures { result ≡ first_mask self start }
    {
        if start { self.start } else { self.inner }
    }

    // Whether the empty part fits.
    fn empty_fits(self, start: bool, end: bool) -> bool
        ensures { result ≡ null_at self start end }
    {
        match (start, end) {
            (true, true) => self.whole,
            (true, false) => self.head,
            (false, true) => self.tail,
            (false, false) => self.middle,
        }
    }

    // Whether a part begins here.
    fn begins(self, start: bool, end: bool, live: u64) -> bool
        ensures { result ≡ (null_at self start end || not (eqb (bit_and (first_mask self start) live) 0)) }
    {
        self.empty_fits(start, end) || self.first_of(start) & live != 0
    }

    // The text's end, where the empty part fits there, or one above it.
    fn end_place(self, n: usize) -> usize
        requires { n < 9223372036854775808 }
        ensures { result ≡ pick (null_at self (eqb n 0) true || not (eqb (bit_and (first_mask self (eqb n 0)) 0) 0)) n (n + 1) }
    {
        if self.begins(n == 0, true, 0) {
            n
        } else {
            n + 1
        }
    }

    // ---- what need not be looked at

    // Whether the empty part fits somewhere in a text of n bytes that is not empty.
    fn empty_somewhere(self, n: usize) -> bool
        ensures { result ≡ null_somewhere self n }
    {
        self.head | self.tail | (self.middle & (1 < n))
    }

    // Whether a text that begins with the byte b has no part but an empty one: another could begin at the text's start alone, and b is
    // met by no position that may begin it.
    fn shut(self, sets: &[[u64; 4]; 60], b: u8) -> bool
        requires { Below 60 self.start }
        ensures { result ≡ true → Shut self sets.now b }
    {
        if self.inner != 0 {
            return false;
        }
        !is_met(sets, self.start, b)
    }
}

// The only position of a mask that has one; none if it has several bits, or one that is no position.
fn only(mask: u64) -> Option<usize>
    requires { mask ≡ 0 → ⊥ }
    ensures { Only mask result }
{
    if mask & (mask - 1) != 0 {
        return None;
    }
    let p = u64::trailing_zeros(mask) as usize;
    if p < 60 { Some(p) } else { None }
}

// The last place up to a place, and above 0, where position p meets the byte; otherwise the text's first place, which a scan looks at in
// any case.
fn last_met(sets: &[[u64; 4]; 60], p: usize, text: &[u8], from: usize) -> usize
    requires { (p < 60) × (from < length text.now) }
    ensures { LastMet (get_or sets.now p []) text.now from result }
{
    for i in (1..=from).rev() {
        if has(sets, p, text[i]) {
            return i;
        }
    }
    0
}

// Where the scan goes on, from the place i: the bytes between are left out, where nothing is live, no empty part fits and no position
// that may end a part meets a byte.
fn passed(h: Shape, sets: &[[u64; 4]; 60], text: &[u8], next: u64, i: usize) -> usize
    requires { (0 < i) × (i ≤ length text.now) }
    ensures { Passed h sets.now text.now next i result }
{
    if next != 0 {
        return i;
    }
    if h.middle {
        return i;
    }
    if i == text.len() {
        return i;
    }
    if h.stops == 0 {
        return 1;
    }
    match only(h.stops) {
        Some(door) => last_met(sets, door, text, i - 1) + 1,
        None => i,
    }
}

// The smallest place at which a part of the text fits, or one above its length: a scan from the end, so that what is live before
// a byte follows from what is live behind it, and the last place found is the smallest.
fn smallest(h: Shape, sets: &[[u64; 4]; 60], before: &[u64; 60], text: &[u8]) -> usize
    requires { Closed h before.now }
    ensures { Leftmost (machine_of h sets.now before.now) text.now result }
{
    let n = text.len();
    let mut best = h.end_place(n);
    let mut next: u64 = 0;
    let mut i = n;
    while 0 < i {
        let top = passed(h, sets, text, next, i);
        let stop = h.last_of(top == n);
        i = top - 1;
        let f = step(sets, before, next | stop, text[i]);
        next = f.next;
        if h.begins(i == 0, false, f.live) {
            best = i;
        }
    }
    best
}

// Whether the text's first byte shows that no part of it fits.
fn shut_out(h: Shape, sets: &[[u64; 4]; 60], before: &[u64; 60], text: &[u8]) -> bool
    requires { Closed h before.now }
    ensures { result ≡ true → Leftmost (machine_of h sets.now before.now) text.now (length text.now + 1) }
{
    let n = text.len();
    if n == 0 {
        return false;
    }
    if h.empty_somewhere(n) {
        return false;
    }
    h.shut(sets, text[0])
}

// The smallest place at which a part of the text fits, or one above its length. An empty part may fit at the start, and the first byte
// may show that none does.
pub fn leftmost(h: Shape, sets: &[[u64; 4]; 60], before: &[u64; 60], text: &[u8]) -> usize
    requires { Closed h before.now }
    ensures { Leftmost (machine_of h sets.now before.now) text.now result }
{
    let n = text.len();
    if h.head & (0 < n) {
        return 0;
    }
    if shut_out(h, sets, before, text) {
        return n + 1;
    }
    smallest(h, sets, before, text)
}

// Whether some part of a text that is not empty fits, where no empty one does: the same scan, which ends at the first place that it
// finds, or where nothing can be live any more. Where no position may stand before a live one, and one alone may end a part, the door,
// it goes on at the next byte that this one meets.
fn scan_down(
    h: Shape,
    sets: &[[u64; 4]; 60],
    before: &[u64; 60],
    text: &[u8],
    door: Option<usize>,
) -> bool
    requires { Closed h before.now × (length text.now ≡ 0 → ⊥) × (null_somewhere h (length text.now) ≡ false) × Only h.stops door }
    ensures { Found (machine_of h sets.now before.now) text.now result }
{
    let mut candidates = h.ends;
    let mut i = text.len() - 1;
    while 0 < i {
        let f = step(sets, before, candidates, text[i]);
        if h.inner & f.live != 0 {
            return true;
        }
        candidates = f.next | h.stops;
        if candidates == 0 {
            return false;
        }
        i -= 1;
        if f.next == 0 {
            if let Some(p) = door {
                i = last_met(sets, p, text, i);
            }
        }
    }
    is_met(sets, h.start & candidates, text[0])
}

// Whether some part of the text fits.
pub fn found(h: Shape, sets: &[[u64; 4]; 60], before: &[u64; 60], text: &[u8]) -> bool
    requires { Closed h before.now }
    ensures { Found (machine_of h sets.now before.now) text.now result }
{
    let n = text.len();
    if n == 0 {
        return h.whole;
    }
    if h.empty_somewhere(n) {
        return true;
    }
    if h.shut(sets, text[0]) {
        return false;
    }
    // Two calls: the compiler makes two scans of them, and the one for a part that ends with the text has no door to try.
    if h.stops == 0 {
        return scan_down(h, sets, before, text, None);
    }
    scan_down(h, sets, before, text, only(h.stops))
}
