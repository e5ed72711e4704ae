// Whether the body is a session description (document 02, change request 5), and so where its lines begin.
ghost use Rattle.std.specs.Prelude.{◌≡◌, ◌≤◌, length};
ghost use Rattle.contents.specs.Description.{one_description};
ghost use Rattle.contents.specs.Inner.Places.{values_from};
ghost use Rattle.contents.specs.Values.{reduced};
ghost use Rattle.request.specs.Inner.Places.{head_of, starts_in, colons_in, Fielded, request_of, lines_start};
ghost use Rattle.request.specs.Request.{is_description};

use crate::{FieldPlace, parts_at};

// Whether the value of a Content-Type field says so; it is reduced into the room.
fn value_describes(raw: &[u8], room: &mut [u8]) -> bool
    requires { (length raw.now ≤ 65535) × (length raw.now ≤ length room.old) }
    ensures { result ≡ one_description (values_from (reduced raw.now) 0) }
{
    let n = contents::normalise(raw, room);
    contents::is_description(&room[0..n])
}

// "exactly one Content-Type field": a second one ends the search.
fn is_described(s: &[u8], lent: &[FieldPlace], head: usize, fields: usize, room: &mut [u8]) -> bool
    requires { Fielded s.now (starts_in lent.now) (colons_in lent.now) head fields × (length s.now ≤ length room.old) }
    ensures { result ≡ is_description (request_of s.now) }
{
    let long = contents::long_names();
    let mut describes = None;
    for i in 0..fields {
        let f = parts_at(s, lent, head, fields, i);
        let a = f.name;
        let b = f.stop;
        let v = f.value;
        let e = f.end;
        let name = contents::as_matched(&s[a..b], &long);
        if !octets::same_letters(name, b"Content-Type") {
            continue;
        }
        if describes.is_some() {
            return false;
        }
        describes = Some(value_describes(&s[v..e], room));
    }
    describes.unwrap_or(false)
}

// Where body lines begin; at the end where there are none.
pub(crate) fn lines_start(
    s: &[u8],
    lent: &[FieldPlace],
    head: usize,
    fields: usize,
    room: &mut [u8],
) -> usize
    requires { Fielded s.now (starts_in lent.now) (colons_in lent.now) head fields × (length s.now ≤ length room.old) }
    ensures { result ≡ lines_start (head_of s.now) (request_of s.now) }
{
    if is_described(s, lent, head, fields, room) {
        return head + 4;
    }
    s.len()
}
