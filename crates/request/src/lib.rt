// The SIP request: readable or not, its start line and its fields. What stands in a field's value and in the body is read by `contents`.
// The definitions stand in specs/.
#![tactic(auto)]

ghost use Rattle.std.specs.Prelude.{◌≡◌, [], ◌+◌, ◌-◌, ◌≤◌, ◌<◌, T, ltb, length, get_or};
ghost use Rattle.octets.specs.Lists.{pick};
ghost use Rattle.request.specs.Inner.Places.{head_of, starts_in, colons_in, Rooms, Read, Fielded, field_parts};
ghost use Rattle.request.specs.Request.{paired, head_lines, read_head, read_request};
ghost use Rattle.request.specs.Inner.Steps.{judged, Fillable, Filled};

mod descriptions;
mod field_lines;
mod head_bytes;
mod head_ends;
mod readable;
mod start_lines;

use crate::descriptions::lines_start;
use crate::field_lines::{are_fields, line_end};
use crate::head_bytes::bytes_right;
pub use crate::head_ends::head_end;
pub use crate::readable::{Field, ReadableRequest};
use crate::start_lines::start_line;

// ---- the request

// Where the head, the method and the URI of a readable request end, and where the line of its first field starts.
#[derive(Clone, Copy)]
struct HeadPlaces {
    head: usize,
    method: usize,
    uri: usize,
    fields: usize,
}

// The lines of a head whose bytes are right.
fn judge_lines(h: &[u8]) -> Option<HeadPlaces>
    requires { (length h.now ≤ 65535) × T (paired 0 h.now) }
    ensures { result ≡ judged h.now (read_head (head_lines h.now) []) }
{
    let n = cuts::place_of(h, 0, b'\r');
    // "none may follow the start line directly" (document 01): no line that continues it
    if cuts::is_white(octets::byte_at(h, n + 2)) {
        return None;
    }
    let start = start_line(&h[0..n])?;
    let table = octets::class_table();
    if !are_fields(&table, h, n + 2) {
        return None;
    }
    Some(HeadPlaces {
        head: h.len(),
        method: start.method,
        uri: start.uri,
        fields: n + 2,
    })
}

fn judge(s: &[u8]) -> Option<HeadPlaces>
    ensures { result ≡ judged (head_of s.now) (read_request s.now) }
{
    if 65535 < s.len() {
        return None;
    }
    let at = head_end(s);
    if s.len() <= at {
        return None;
    }
    if !bytes_right(&s[0..at]) {
        return None;
    }
    judge_lines(&s[0..at])
}

// Where the line of a field starts, and where its colon stands.
#[derive(Clone, Copy, Default)]
pub struct FieldPlace {
    pub start: u16,
    pub colon: u16,
}

// Writes the place of each line from a place on to the front of the lent places. All of them are fields. It answers how many.
fn fill(h: &[u8], from: usize, lent: &mut [FieldPlace]) -> usize
    requires { Fillable h.now from (length lent.old) (length lent.old) }
    ensures { Filled h.now from (starts_in lent.old) (colons_in lent.old) (starts_in lent.new) (colons_in lent.new) result }
{
    let mut p = from;
    let mut n: usize = 0;
    while p <= h.len() {
        let e = line_end(h, p);
        let k = cuts::place_of(&h[p..e], 0, b':');
        lent[n] = FieldPlace {
            start: p as u16,
            colon: (p + k) as u16,
        };
        n += 1;
        p = e + 2;
    }
    n
}

// Where the parts of a readable request stand: where its method, its URI and its head end, how many fields it has, and where its body
// lines begin.
#[derive(Clone, Copy)]
pub struct Places {
    pub method: usize,
    pub uri: usize,
    pub head: usize,
    pub fields: usize,
    pub lines: usize,
}

// Reads a request. The place of each field goes to the front of the lent places, which are at least a quarter as many as the request has
// bytes, since a field takes four; none of them is written where the request is unreadable. What stands in the room afterwards means
// nothing.
pub fn read(s: &[u8], lent: &mut [FieldPlace], room: &mut [u8]) -> Option<Places>
    requires { Rooms s.now (starts_in lent.old) (colons_in lent.old) room.old }
    ensures { Read s.now (starts_in lent.old) (colons_in lent.old) (starts_in lent.new) (colons_in lent.new) result }
{
    let h = judge(s)?;
    let fields = fill(&s[0..h.head], h.fields, lent);
    let lines = lines_start(s, lent, h.head, fields, room);
    Some(Places {
        method: h.method,
        uri: h.uri,
        head: h.head,
        fields,
        lines,
    })
}

// ---- one field

// Where the line of field i ends: two bytes before the next one starts, or with the head.
fn field_end(lent: &[FieldPlace], head: usize, fields: usize, i: usize) -> usize
    requires { (i < fields) × (fields ≤ length lent.now) × ((i + 1 < fields) → 2 ≤ get_or (starts_in lent.now) (i + 1) 0) }
    ensures { result ≡ pick (ltb (i + 1) fields) (get_or (starts_in lent.now) (i + 1) 0 - 2) head }
{
    if i + 1 < fields {
        return octets::from_word(lent[i + 1].start) - 2;
    }
    head
}

// A field: its name as written stands from name to stop, its raw value from value to end.
#[derive(Clone, Copy)]
pub struct FieldParts {
    pub name: usize,
    pub stop: usize,
    pub value: usize,
    pub end: usize,
}

// Field i of a head, from the places that `read` wrote: no line is looked for again.
pub(crate) fn parts_at(
    s: &[u8],
    lent: &[FieldPlace],
    head: usize,
    fields: usize,
    i: usize,
) -> FieldParts
    requires { Fielded s.now (starts_in lent.now) (colons_in lent.now) head fields × (i < fields) }
    ensures { result ≡ field_parts (head_of s.now) i }
{
    let a = octets::from_word(lent[i].start);
    let k = octets::from_word(lent[i].colon);
    let n = cuts::trimmed_end(&s[a..k]);
    let e = field_end(lent, head, fields, i);
    FieldParts {
        name: a,
        stop: a + n,
        value: k + 1,
        end: e,
    }
}
