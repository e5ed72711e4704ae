// The plain matcher (document 02, change request 7). It goes over the pattern's bytes where they stand and "tries the choices one after
// the other, on a shorter pattern or a shorter text at each turn". With each `*` there can be many times as many choices.
//
// It calls two functions from below: `is_pattern(p)` says whether p is a pattern at all, and `peek_at(s, i)` is the byte at i of s, or 256
// past its end. Behind `is_pattern` no fault is looked for.
// The bytes are 36 `$`, 42 `*`, 45 `-`, 46 `.`, 91 `[`, 92 `\`, 93 `]`, 94 `^`.
#![tactic(auto)]

ghost use Rattle.std.specs.Prelude.{◌≡◌, ◌+◌, ◌≤◌, ◌<◌, length, drop};
ghost use Rattle.octets.specs.Lists.{pick};
ghost use Rattle.basic.specs.Reading.{range_opens};
ghost use Rattle.plain.specs.Plain.{Plains};
ghost use Rattle.place.specs.Place.{one_more, longer};
ghost use Rattle.plain.specs.Inner.Turns.{Short, Ranged, Tried, Reaches, Finds, told, taken};

use basic::{is_pattern, peek_at};

// The refusal number, whether some part fits, the place of its first byte and how many bytes it has.
#[derive(Clone, Copy)]
pub struct Answer {
    pub refusal: u32,
    pub found: bool,
    pub start: u32,
    pub size: u32,
}

// Whether an element without its `*` takes a byte, and where it ends in the pattern.
#[derive(Clone, Copy)]
pub struct Trial {
    pub takes: bool,
    pub end: usize,
}

// One byte more.
fn one_more(way: Option<usize>) -> Option<usize>
    requires { taken way < 256 }
    ensures { told result ≡ one_more (told way) }
{
    Some(way? + 1)
}

fn longer(a: Option<usize>, b: Option<usize>) -> Option<usize>
    ensures { told result ≡ longer (told a) (told b) }
{
    match (a, b) {
        (Some(m), Some(n)) => Some(m.max(n)),
        (None, _) => b,
        (_, None) => a,
    }
}

// Where a list has the last byte of what begins at i: two on where a `-` makes it a range, as it does unless `]` follows.
fn last_at(p: &[u8], i: usize) -> usize
    requires { i < length p.now }
    ensures { result ≡ pick (range_opens (drop (i + 1) p.now)) (i + 2) i }
{
    let end = peek_at(p, i + 2);
    if (peek_at(p, i + 1) == 45) & (end != 93) & (end != 256) {
        return i + 2;
    }
    i
}

// A list from behind its `[` and `^`, up to the first `]` that is not its first byte: whether one of its ranges has the byte c.
fn try_list(p: &[u8], from: usize, c: u16) -> Trial
    requires { from ≤ length p.now }
    ensures { Ranged p.now from c result }
{
    let mut i = from;
    let mut has = false;
    while i < p.len() {
        let low = peek_at(p, i);
        if (low == 93) & (from < i) {
            return Trial {
                takes: has,
                end: i + 1,
            };
        }
        let last = last_at(p, i);
        let high = peek_at(p, last);
        has |= (low <= c) & (c <= high);
        i = last + 1;
    }
    Trial {
        takes: false,
        end: i,
    }
}

// The element at i on the byte c: a `\` says that the next byte stands for itself, and neither `.` nor a list with `^` ever takes byte 0.
fn try_one(p: &[u8], i: usize, c: u16) -> Trial
    requires { i < length p.now }
    ensures { Tried p.now i c result }
{
    let next = peek_at(p, i + 1);
    match peek_at(p, i) {
        46 => Trial {
            takes: c != 0,
            end: i + 1,
        },
        92 => Trial {
            takes: next == c,
            end: i + 2,
        },
        91 if next == 94 => {
            let list = try_list(p, i + 2, c);
            Trial {
                takes: (c != 0) & !list.takes,
                end: list.end,
            }
        }
        91 => try_list(p, i + 1, c),
        b => Trial {
            takes: b == c,
            end: i + 1,
        },
    }
}

// How many bytes the pattern from i on takes at most of the text from j on, if it fits there: its element takes the byte at j or, where a
// `*` follows it, is left out.
fn reach(p: &[u8], i: usize, text: &[u8], j: usize) -> Option<usize>
    requires { Short text.now j }
    ensures { Reaches p.now i text.now j result }
{
    if p.len() <= i {
        return Some(0);
    }
    if (peek_at(p, i) == 36) & (i + 1 == p.len()) {
        return (j == text.len()).then_some(0);
    }
    let one = try_one(p, i, peek_at(text, j));
    let takes = (j < text.len()) & one.takes;
    if peek_at(p, one.end) != 42 {
        if !takes {
            return None;
        }
        let on = reach(p, one.end, text, j + 1);
        return one_more(on);
    }
    let without = reach(p, one.end + 1, text, j);
    if !takes {
        return without;
    }
    let on = reach(p, i, text, j + 1);
    longer(without, one_more(on))
}

fn tell(refusal: u32, found: bool, start: usize, size: usize) -> Answer
    requires { (start ≤ 256) × (size ≤ 256) }
    ensures { result ≡ record { refusal = refusal; found = found; start = start; size = size } }
{
    Answer {
        refusal,
        found,
        start: start as u32,
        size: size as u32,
    }
}

// The first place from j on: at j, or further on where no `^` holds it.
fn search(p: &[u8], i: usize, text: &[u8], j: usize) -> Answer
    requires { Short text.now j }
    ensures { Finds p.now i text.now j result }
{
    if let Some(size) = reach(p, i, text, j) {
        return tell(0, true, j, size);
    }
    if (i == 1) | (j == text.len()) {
        return tell(0, false, 0, 0);
    }
    search(p, i, text, j + 1)
}

// Where an edition 1 pattern matches a text of at most 256 bytes.
pub fn plain(p: &[u8], text: &[u8]) -> Answer
    ensures { Plains p.now text.now result }
{
    if !is_pattern(p) {
        return tell(5, false, 0, 0);
    }
    if 256 < text.len() {
        return tell(17, false, 0, 0);
    }
    if peek_at(p, 0) == 94 {
        return search(p, 1, text, 0);
    }
    search(p, 0, text, 0)
}
