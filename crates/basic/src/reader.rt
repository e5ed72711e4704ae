// The reader: each function answers what it read and where what is left begins, or nothing where the pattern is refused.
ghost use Rattle.std.specs.Prelude.{◌≡◌, true, false, not, ◌&&◌, List, ℕ, ◌+◌, ◌<◌, ◌≤◌, eqb, length, get_or, drop};
ghost use Rattle.octets.specs.Lists.{text, pick, some_of, peek};
ghost use Rattle.basic.specs.Pattern.{list};
ghost use Rattle.basic.specs.Inner.Places.{map_got, items_of, start_of, stop_of, ItemAt, PieceAt};
ghost use Rattle.basic.specs.Reading.{class_opens, begins_item, range, item, bracket, escaped, atom};
ghost use Rattle.basic.specs.Inner.Drawn.{drawn};

use crate::draw::{any, closed, lone, widen};

// What stands in a list: from lo to hi.
#[derive(Clone, Copy)]
pub struct Item {
    pub end: usize,
    pub lo: u8,
    pub hi: u8,
}

// An atom: the bytes that it meets, where sets are asked for.
#[derive(Clone, Copy)]
pub struct Piece {
    pub end: usize,
    pub set: [u64; 4],
}

// The byte at i, or 256 past the end.
pub fn peek_at(s: &[u8], i: usize) -> u16
    ensures { result ≡ peek (drop i s.now) }
{
    if i < s.len() {
        return s[i] as u16;
    }
    256
}

// "`[.` `[=` `[:` inside a list"
fn opens_class(b: u8, next: u16) -> bool
    ensures { (s : List ℕ) → next ≡ peek s → result ≡ class_opens b s }
{
    if b == b'[' {
        return (next == 46) | (next == 61) | (next == 58);
    }
    false
}

// A byte that may begin an item: "`-` when first or last", "a first `-` may begin a range"; `[.` `[=` `[:` may not.
fn may_begin(first: bool, b: u8, next: u16) -> bool
    ensures { (s : List ℕ) → next ≡ peek s → result ≡ (begins_item first b s && not (class_opens b s)) }
{
    if b == b'-' {
        return first | (next == 93);
    }
    !opens_class(b, next)
}

// "a range that falls" is refused; its end is no `[` of a class.
fn range_at(s: &[u8], i: usize) -> Option<Item>
    requires { i + 2 < length s.now }
    ensures { ItemAt (range (get_or s.now i 0) (drop (i + 1) s.now)) s.now i result }
{
    let lo = s[i];
    let hi = s[i + 2];
    let next = peek_at(s, i + 3);
    if hi < lo {
        return None;
    }
    if opens_class(hi, next) {
        return None;
    }
    Some(Item { end: i + 3, lo, hi })
}

// "any `-` may end one; ranges are read from the left": a `-` is an operator unless it stands straight before `]`.
fn item_at(s: &[u8], i: usize, first: bool) -> Option<Item>
    requires { i < length s.now }
    ensures { ItemAt (item first (get_or s.now i 0) (drop (i + 1) s.now)) s.now i result }
{
    let b = s[i];
    let next = peek_at(s, i + 1);
    if !may_begin(first, b, next) {
        return None;
    }
    if next != 45 {
        return Some(Item {
            end: i + 1,
            lo: b,
            hi: b,
        });
    }
    let end = peek_at(s, i + 2);
    if (end == 93) | (end == 256) {
        return Some(Item {
            end: i + 1,
            lo: b,
            hi: b,
        });
    }
    range_at(s, i)
}

// The items of a list up to its closing `]`. "`]` is ordinary when first"; "an unclosed list" is refused.
fn items_at(s: &[u8], from: usize, build: bool) -> Option<Piece>
    ensures { PieceAt (map_got (λ l. drawn build (list false l)) (items_of true (drop from s.now))) s.now from result }
{
    let mut set = [0u64; 4];
    let mut i = from;
    let mut first = true;
    while i < s.len() {
        if (s[i] == b']') & !first {
            return Some(Piece { end: i + 1, set });
        }
        let item = item_at(s, i, first)?;
        let wider = widen(build, set, item.lo, item.hi);
        set = wider;
        i = item.end;
        first = false;
    }
    None
}

// A bracket list from behind its `[` and `^`.
fn bracket_of(s: &[u8], from: usize, negated: bool, build: bool) -> Option<Piece>
    ensures { PieceAt (map_got (λ l. drawn build (list negated l)) (items_of true (drop from s.now))) s.now from result }
{
    let p = items_at(s, from, build)?;
    let set = closed(build, negated, p.set);
    Some(Piece { end: p.end, set })
}

// "`^` first"
fn bracket_at(s: &[u8], i: usize, build: bool) -> Option<Piece>
    requires { i ≤ length s.now }
    ensures { PieceAt (map_got (drawn build) (bracket (drop i s.now))) s.now i result }
{
    let negated = peek_at(s, i) == 94;
    bracket_of(s, behind(i, negated), negated, build)
}

// "`\` before one of `. [ \ * ^ $`"
fn is_special(c: u16) -> bool
    ensures { result ≡ some_of (eqb c) (text ".[\\*^$") }
{
    (c == 46) | (c == 91) | (c == 92) | (c == 42) | (c == 94) | (c == 36)
}

fn escaped_at(s: &[u8], i: usize, build: bool) -> Option<Piece>
    ensures { PieceAt (map_got (drawn build) (escaped (drop i s.now))) s.now i result }
{
    let c = peek_at(s, i);
    if !is_special(c) {
        return None;
    }
    let set = lone(build, s[i]);
    Some(Piece { end: i + 1, set })
}

// A list, a pair or a `*`. "`*` first, or right after the leading `^`, is ordinary"; any other that begins an atom is refused.
fn special_at(s: &[u8], i: usize, first: bool, build: bool) -> Option<Piece>
    requires { (i < length s.now) × (get_or s.now i 0 ≡ 46 → ⊥) }
    ensures { PieceAt (map_got (drawn build) (atom first (get_or s.now i 0) (drop (i + 1) s.now))) s.now i result }
{
    let b = s[i];
    if b == b'[' {
        return bracket_at(s, i + 1, build);
    }
    if b == b'\\' {
        return escaped_at(s, i + 1, build);
    }
    if (b == b'*') & !first {
        return None;
    }
    let set = lone(build, b);
    Some(Piece { end: i + 1, set })
}

// A byte that stands for itself wherever it stands.
pub fn is_plain(b: u8) -> bool
    ensures { result ≡ not (some_of (eqb b) (text ".[\\*")) }
{
    !((b == b'.') | (b == b'[') | (b == b'\\') | (b == b'*'))
}

// The atom that begins at i: short enough to stand in both loops over atoms, and calls for what is rare.
pub fn atom_at(s: &[u8], i: usize, first: bool, build: bool) -> Option<Piece>
    requires { i < length s.now }
    ensures { PieceAt (map_got (drawn build) (atom first (get_or s.now i 0) (drop (i + 1) s.now))) s.now i result }
{
    let b = s[i];
    if is_plain(b) {
        let set = lone(build, b);
        return Some(Piece { end: i + 1, set });
    }
    if b == b'.' {
        let set = any(build);
        return Some(Piece { end: i + 1, set });
    }
    // Two calls: a function that is called once the compiler moves to its call, and this one would then be too long for the loops.
    if build {
        return special_at(s, i, first, true);
    }
    special_at(s, i, first, false)
}

// Whether an atom that ends at i repeats. From where no element begins there is no `*`.
pub fn star_at(s: &[u8], i: usize, stop: usize) -> bool
    requires { stop ≡ stop_of s.now }
    ensures { result ≡ eqb (peek (drop i s.now)) 42 }
{
    if i < stop {
        return s[i] == b'*';
    }
    false
}

// Behind an atom that ends at `end` and its `*`, or behind a list's `[` and its `^`.
pub(crate) fn behind(end: usize, repeats: bool) -> usize
    requires { end < 9223372036854775808 }
    ensures { result ≡ pick repeats (end + 1) end }
{
    if repeats {
        return end + 1;
    }
    end
}

// "`^` as anchor only first"
pub fn start_at(s: &[u8]) -> usize
    ensures { result ≡ start_of s.now }
{
    if peek_at(s, 0) == 94 {
        return 1;
    }
    0
}

// "`$` only last": no element begins there, or at the end. One that begins before, as a final `\$`, may end behind it.
pub fn stop_at(s: &[u8]) -> usize
    requires { 0 < length s.now }
    ensures { result ≡ stop_of s.now }
{
    let last = s.len() - 1;
    if s[last] == b'$' {
        return last;
    }
    s.len()
}
