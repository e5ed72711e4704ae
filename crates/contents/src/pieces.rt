// Values: reduced, and cut at commas.
ghost use Rattle.std.specs.Prelude.{◌≡◌, ◌+◌, ◌≤◌, length, drop};
ghost use Rattle.cuts.specs.Inner.Parts.{over};
ghost use Rattle.cuts.specs.Inner.Searching.{span};
ghost use Rattle.contents.specs.Inner.Places.{piece_at};
ghost use Rattle.contents.specs.Inner.Steps.{space, mode_of};
ghost use Rattle.contents.specs.Values.{plain, step, cuts, reduced};
ghost use Rattle.contents.specs.Inner.Walks.{NextCut};

use crate::{CutValue, Piece};

// Where a byte of a value stands: in plain text, in quoted text, in it just after `\`, or in `<>`.
#[derive(Clone, Copy)]
pub(crate) enum Within {
    Text,
    Quotes,
    Escape,
    Angles,
}

// SP, HTAB, or the CR or LF of a fold.
fn is_space(b: u8) -> bool
    ensures { result ≡ space b }
{
    (b == b' ') | (b == b'\t') | (b == b'\n') | (b == b'\r')
}

// Writes the value as document 01 reads it to the front of the lent place: no white space at the ends, one SP for each run inside. It answers
// how many bytes it wrote.
pub fn normalise(raw: &[u8], dst: &mut [u8]) -> usize
    requires { length raw.now ≤ length dst.old }
    ensures { (result ≡ length (reduced raw.now)) × (dst.new ≡ over (reduced raw.now) dst.old) }
{
    let mut gap = false;
    let mut n: usize = 0;
    for &b in raw {
        if is_space(b) {
            gap = 0 < n;
            continue;
        }
        if gap {
            dst[n] = b' ';
            n += 1;
            gap = false;
        }
        dst[n] = b;
        n += 1;
    }
    n
}

fn next_within(w: Within, b: u8) -> Within
    ensures { mode_of result ≡ step (mode_of w) b }
{
    match w {
        Within::Text => {
            if b == b'"' {
                return Within::Quotes;
            }
            if b == b'<' {
                return Within::Angles;
            }
            Within::Text
        }
        Within::Quotes => {
            if b == b'\\' {
                return Within::Escape;
            }
            if b == b'"' {
                return Within::Text;
            }
            Within::Quotes
        }
        Within::Escape => Within::Quotes,
        Within::Angles => {
            if b == b'>' {
                return Within::Text;
            }
            Within::Angles
        }
    }
}

// Whether a byte is a comma that cuts.
fn cuts_here(w: Within, b: u8) -> bool
    ensures { result ≡ cuts (mode_of w) b }
{
    match w {
        Within::Text => b == b',',
        Within::Quotes => false,
        Within::Escape => false,
        Within::Angles => false,
    }
}

// The end of the piece of a value that starts at a place.
fn piece_end(v: &[u8], from: usize) -> usize
    requires { from ≤ length v.now }
    ensures { result ≡ from + span cuts step plain (drop from v.now) }
{
    let mut w = Within::Text;
    for i in from..v.len() {
        let b = v[i];
        if cuts_here(w, b) {
            return i;
        }
        w = next_within(w, b);
    }
    v.len()
}

// The piece that starts at a place of a reduced value.
pub fn next_value(v: &[u8], from: usize) -> Piece
    requires { (from ≤ length v.now) × (length v.now ≤ 65535) }
    ensures { result ≡ piece_at v.now from }
{
    let k = piece_end(v, from);
    let stop = from + cuts::trimmed_end(&v[from..k]);
    let a = cuts::blanks(&v[from..stop]);
    Piece {
        start: from + a,
        end: stop,
        next: k + 1,
    }
}

// The first value that a reduced value is cut into, from a place on; none past its end.
pub fn next_cut(v: &[u8], from: usize) -> Option<CutValue<'_>>
    requires { length v.now ≤ 65535 }
    ensures { NextCut v.now from result }
{
    if v.len() < from {
        return None;
    }
    let x = next_value(v, from);
    Some(CutValue {
        bytes: &v[x.start..x.end],
        next: x.next,
    })
}
