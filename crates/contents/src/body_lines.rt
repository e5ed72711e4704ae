// The lines of a body.
ghost use Rattle.std.specs.Prelude.{◌≡◌, ◌+◌, ◌≤◌, ltb, length};
ghost use Rattle.cuts.specs.Inner.Parts.{part};
ghost use Rattle.contents.specs.Inner.Walks.{NextField};
ghost use Rattle.contents.specs.Inner.Places.{body_line};
ghost use Rattle.contents.specs.Inner.Steps.{ended_line};

use crate::{BodyLine, FieldLine};

// Where the line of a body that stands from a place to k ends: before a CR that an LF follows.
fn line_stop(b: &[u8], from: usize, k: usize) -> usize
    requires { (from ≤ k) × (k ≤ length b.now) }
    ensures { result ≡ from + length (ended_line (ltb k (length b.now)) (part b.now from k)) }
{
    if b.len() <= k {
        return k;
    }
    if k <= from {
        return k;
    }
    let last = b[k - 1];
    if last == b'\r' {
        return k - 1;
    }
    k
}

// The line of a body that starts at a place; Done past the last.
pub fn next_line(b: &[u8], from: usize) -> BodyLine
    requires { length b.now ≤ 65535 }
    ensures { result ≡ body_line b.now from }
{
    if b.len() < from {
        return BodyLine::Done;
    }
    let k = cuts::place_of(b, from, b'\n');
    let next = k + 1;
    let e = line_stop(b, from, k);
    if e < from + 2 {
        return BodyLine::Other { next };
    }
    if b[from + 1] != b'=' {
        return BodyLine::Other { next };
    }
    BodyLine::Typed {
        start: from,
        value: from + 2,
        end: e,
        next,
    }
}

// The first line of a body, from a place on, that is a field.
pub fn next_field_line(b: &[u8], from: usize) -> Option<FieldLine<'_>>
    requires { length b.now ≤ 65535 }
    ensures { NextField b.now from result }
{
    let mut at = from;
    loop {
        match next_line(b, at) {
            BodyLine::Done => {
                return None;
            }
            BodyLine::Other { next } => at = next,
            BodyLine::Typed {
                start,
                value,
                end,
                next,
            } => {
                return Some(FieldLine {
                    kind: &b[start..start + 1],
                    value: &b[value..end],
                    next,
                });
            }
        }
    }
}
