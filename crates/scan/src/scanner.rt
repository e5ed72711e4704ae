// Scans a text: whole, or wrong at a place (refusal 14).
ghost use Rattle.std.specs.Prelude.{◌≡◌, ◌+◌, ◌≤◌, ◌<◌, length, drop, get_or, true, false};
ghost use Rattle.grammar.specs.Reading.{read_text};
ghost use Rattle.grammar.specs.Inner.Made.{forget, shifted};
ghost use Rattle.scan.specs.Table.{digit, profile_text};
ghost use Rattle.scan.specs.Inner.Rests.{plainly};
ghost use Rattle.scan.specs.Inner.Turns.{Turns, TurnsAhead, words_ahead, scan_out};
ghost use Rattle.scan.specs.Inner.Points.{word_at, common, class_of, run, kind_of, Chose, ends_by, closing, Closes, Found};

use crate::points::{first_of, letter, next_of, start_of, width_of};
use octets::byte_at;

// How many bytes of word j stand in the text from a place on.
fn reach(s: &[u8], at: usize, j: usize) -> usize
    requires { (at ≤ length s.now) × (j < 123) }
    ensures { result ≡ common (word_at j) (drop at s.now) }
{
    let from = start_of(j);
    let n = width_of(j);
    let left = s.len() - at;
    for i in 0..n {
        if left <= i {
            return i;
        }
        let a = letter(from + i);
        let b = s[at + i];
        if a != b {
            return i;
        }
    }
    n
}

// The bytes that a point passes over: between tags, in a number, in a string.
#[derive(Clone, Copy)]
pub enum Kind {
    Blank,
    Digit,
    Text,
}

// Whether the byte is one that a point passes over.
fn in_class(kind: Kind, b: u8) -> bool
    ensures { result ≡ class_of kind b }
{
    match kind {
        Kind::Blank => matches!(b, b' ' | b'\t' | b'\r' | b'\n'),
        Kind::Digit => b.is_ascii_digit(),
        Kind::Text => !matches!(b, b'<' | b'&'),
    }
}

// Where the bytes of a class end.
fn run_end(s: &[u8], at: usize, kind: Kind) -> usize
    requires { at ≤ length s.now }
    ensures { result ≡ at + run (class_of kind) (drop at s.now) }
{
    for i in at..s.len() {
        if !in_class(kind, s[i]) {
            return i;
        }
    }
    s.len()
}

// The word of point q that stands at a place, or how many bytes go on where none does.
fn choose(s: &[u8], at: usize, q: usize) -> Result<usize, usize>
    requires { (at ≤ length s.now) × (q < 42) }
    ensures { Chose q (drop at s.now) result }
{
    let end = first_of(q + 1);
    let mut best: usize = 0;
    for j in first_of(q)..end {
        let r = reach(s, at, j);
        if r == width_of(j) {
            return Ok(j);
        }
        best = best.max(r);
    }
    Err(best)
}

// Whether a comment (or else a `<?`) ends with the byte b, behind the bytes q and p.
fn ends_with(comment: bool, q: u8, p: u8, b: u8) -> bool
    ensures { result ≡ ends_by comment q p b }
{
    if comment {
        return b == b'>' && p == b'-' && q == b'-';
    }
    b == b'>' && p == b'?'
}

// Where a comment (or else a `<?`) ends: the place behind the first `-->` (or `?>`) from a place on, if there is one.
fn end_of(s: &[u8], at: usize, comment: bool) -> Option<usize>
    requires { at ≤ length s.now }
    ensures { Closes (closing comment) s.now at result }
{
    let mut q: u8 = 0;
    let mut p: u8 = 0;
    for i in at..s.len() {
        let b = s[i];
        if ends_with(comment, q, p, b) {
            return Some(i + 1);
        }
        q = p;
        p = b;
    }
    None
}

// What stands behind a point: another point, the end of a whole text, or a byte with which no text goes on.
#[derive(Clone, Copy)]
pub enum Turn {
    Next(usize, usize),
    Whole,
    Wrong(usize),
}

// Which bytes point q passes over.
fn kind_of(q: usize) -> Kind
    ensures { result ≡ kind_of q }
{
    match q {
        0..25 => Kind::Blank,
        25..34 => Kind::Digit,
        _ => Kind::Text,
    }
}

// Behind word j of point q, and behind the comment where it begins one.
fn behind_word(s: &[u8], at: usize, q: usize, j: usize) -> Turn
    requires { (at ≤ length s.now) × (q < 42) × (j < 123) × Found q (drop at s.now) j }
    ensures { TurnsAhead (words_ahead q) s.now at result }
{
    let e = at + width_of(j);
    let next = next_of(j);
    if next < 64 {
        return Turn::Next(e, next);
    }
    match end_of(s, e, true) {
        Some(z) => Turn::Next(z, next - 64),
        None => Turn::Wrong(s.len()),
    }
}

// By the words of point q.
fn word_turn(s: &[u8], at: usize, q: usize) -> Turn
    requires { (at ≤ length s.now) × (q < 42) }
    ensures { TurnsAhead (words_ahead q) s.now at result }
{
    match choose(s, at, q) {
        Ok(j) => behind_word(s, at, q, j),
        Err(m) => Turn::Wrong(at + m),
    }
}

// From point q, of the kind given, over what it passes over and on by its words.
fn lead(s: &[u8], at: usize, q: usize, kind: Kind) -> Turn
    requires { (at ≤ length s.now) × (q < 42) × (kind ≡ kind_of q) × (kind ≡ Kind.Digit → digit (get_or s.now at 0) ≡ true) }
    ensures { Turns (plainly q) s.now at result }
{
    let e = run_end(s, at, kind);
    if q == 0 && e == s.len() {
        return Turn::Whole;
    }
    word_turn(s, e, q)
}

// From one point of the text to the next.
fn pass_point(s: &[u8], at: usize, q: usize) -> Turn
    requires { (at ≤ length s.now) × (q < 42) }
    ensures { Turns (plainly q) s.now at result }
{
    match kind_of(q) {
        Kind::Digit if in_class(Kind::Digit, byte_at(s, at)) => lead(s, at, q, Kind::Digit),
        Kind::Digit => Turn::Wrong(at),
        kind => lead(s, at, q, kind),
    }
}

// From the top, at a place: where the text goes wrong, if it is none of the subset.
fn scan_from(s: &[u8], from: usize) -> Result<(), usize>
    requires { from ≤ length s.now }
    ensures { scan_out result ≡ shifted from (plainly 0 (drop from s.now)) }
{
    let mut at = from;
    let mut q: usize = 0;
    loop {
        match pass_point(s, at, q) {
            Turn::Next(e, p) => {
                at = e;
                q = p;
            }
            Turn::Whole => return Ok(()),
            Turn::Wrong(n) => return Err(n),
        }
    }
}

// The whole text: "one `<?` to its `?>` at byte 0", and then from the top.
pub fn scan_text(s: &[u8]) -> Result<(), usize>
    ensures { scan_out result ≡ forget (read_text profile_text s.now) }
{
    let a = byte_at(s, 0);
    let b = byte_at(s, 1);
    if (b'<' == a) & (b'?' == b) {
        return match end_of(s, 2, false) {
            Some(e) => scan_from(s, e),
            None => Err(s.len()),
        };
    }
    scan_from(s, 0)
}
