// A request that was read, as the crates above are lent it.
ghost use Rattle.std.specs.Prelude.{◌≡◌, ◌<◌, ◌≤◌, length, drop};
ghost use Rattle.std.proofs.Props.{props};
ghost use Rattle.contents.specs.Body.{session_lines};
ghost use Rattle.request.specs.Request.{request_lines};
ghost use Rattle.request.specs.Inner.Places.{head_of, request_of, lines_start, starts_in, colons_in, Placed, FieldIs, field_parts};

use crate::{FieldParts, FieldPlace, Places, parts_at};

// Its bytes, and the places of its parts, as `read` found them: those of its fields stand in places that were lent.
#[derive(Clone, Copy)]
pub struct ReadableRequest<'a> {
    pub bytes: &'a [u8],
    pub fields: &'a [FieldPlace],
    pub places: Places,
    pub ghost placed: { Placed bytes.now (starts_in fields.now) (colons_in fields.now) places } by { Prim.hlevel props },
}

// A field: its name as written, and its raw value.
#[derive(Clone, Copy)]
pub struct Field<'a> {
    pub name: &'a [u8],
    pub value: &'a [u8],
}

impl<'a> ReadableRequest<'a> {
    pub fn method(&self) -> &'a [u8]
        ensures { result.now ≡ (request_of self.now.bytes.now).method }
    {
        &self.bytes[0..self.places.method]
    }

    pub fn uri(&self) -> &'a [u8]
        ensures { result.now ≡ (request_of self.now.bytes.now).uri }
    {
        &self.bytes[self.places.method + 1..self.places.uri]
    }

    // The bytes whose lines are the body's: none where the body is no session description.
    pub fn described(&self) -> &'a [u8]
        ensures { (session_lines result.now ≡ request_lines (request_of self.now.bytes.now)) × (length result.now ≤ 65535) × (result.now ≡ drop (lines_start (head_of self.now.bytes.now) (request_of self.now.bytes.now)) self.now.bytes.now) }
    {
        &self.bytes[self.places.lines..]
    }

    // Where the parts of field i stand.
    pub fn parts(&self, i: usize) -> FieldParts
        requires { i < self.now.places.fields }
        ensures { result ≡ field_parts (head_of self.now.bytes.now) i }
    {
        parts_at(
            self.bytes,
            self.fields,
            self.places.head,
            self.places.fields,
            i,
        )
    }

    pub fn field(&self, i: usize) -> Field<'a>
        requires { i < self.now.places.fields }
        ensures { FieldIs self.now.bytes.now i result.name.now result.value.now }
    {
        let at = self.parts(i);
        Field {
            name: &self.bytes[at.name..at.stop],
            value: &self.bytes[at.value..at.end],
        }
    }
}
