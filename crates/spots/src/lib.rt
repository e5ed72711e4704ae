// Which field, or line of the body, which value of it and which part of that a row's prepared patterns match first (document 02, change
// request 2). The definitions stand in specs/.
#![tactic(auto)]

ghost use Rattle.std.specs.Prelude.{◌≡◌, true, false, ◌∷◌, [], ◌≤◌, length, is_some};
ghost use Rattle.contents.specs.Body.{session_lines};
ghost use Rattle.contents.specs.Inner.Places.{values_from};
ghost use Rattle.contents.specs.Values.{reduced, values_of};
ghost use Rattle.request.specs.Inner.Places.{request_of};
ghost use Rattle.trials.specs.Inner.Patterns.{content_bytes};
ghost use Rattle.spots.specs.Spots.{no_spot, bare_spot, none_shown, shown_in, first_shown};
ghost use Rattle.spots.specs.Inner.Steps.{values_spot, item_spot, field_spot, line_spot, LowSpot, LowShown};

use pattern::Prepared;
use request::ReadableRequest;
use trials::RowPatterns;

// Whether there is one, the value's number, the place of the part's first byte in that value, and how many bytes the part has.
#[derive(Clone, Copy)]
pub struct Spot {
    pub found: bool,
    pub value: usize,
    pub start: usize,
    pub size: usize,
}

// The same, with the number of the field or line.
#[derive(Clone, Copy)]
pub struct Shown {
    pub found: bool,
    pub field: usize,
    pub value: usize,
    pub start: usize,
    pub size: usize,
}

fn no_spot() -> Spot
    ensures { result ≡ no_spot }
{
    Spot {
        found: false,
        value: 0,
        start: 0,
        size: 0,
    }
}

fn bare_spot() -> Spot
    ensures { result ≡ bare_spot }
{
    Spot {
        found: true,
        value: 0,
        start: 0,
        size: 0,
    }
}

pub fn none_shown() -> Shown
    ensures { result ≡ none_shown }
{
    Shown {
        found: false,
        field: 0,
        value: 0,
        start: 0,
        size: 0,
    }
}

// ---- one field

// Among the values that a reduced value is cut into.
fn spot_in_pieces(v: &[u8], content: &Prepared<'_>) -> Spot
    requires v_len_bound { length v.now ≤ 65535 }
    requires written { content.now.for_names ≡ false }
    ensures { (result ≡ values_spot content.now.bytes.now (values_from v.now 0)) × LowSpot result }
{
    let mut value: usize = 0;
    let mut from = 0;
    while let Some(cut) = contents::next_cut(v, from) {
        let at = place::find(content, cut.bytes);
        if at.found {
            return Spot {
                found: true,
                value,
                start: at.start,
                size: at.size,
            };
        }
        from = cut.next;
        value += 1;
    }
    no_spot()
}

// In one value that is not cut.
fn spot_in_one(v: &[u8], content: &Prepared<'_>) -> Spot
    requires v_len_bound { length v.now ≤ 65535 }
    requires written { content.now.for_names ≡ false }
    ensures { (result ≡ values_spot content.now.bytes.now (v.now ∷ [])) × LowSpot result }
{
    let at = place::find(content, v);
    if !at.found {
        return no_spot();
    }
    Spot {
        found: true,
        value: 0,
        start: at.start,
        size: at.size,
    }
}

// In the values of a field: its raw value is reduced into the lent room once, and cut unless its name says not.
fn spot_in_values(name: &[u8], raw: &[u8], content: &Prepared<'_>, room: &mut [u8]) -> Spot
    requires raw_len_bound { (length raw.now ≤ 65535) × (length raw.now ≤ length room.old) }
    requires written { content.now.for_names ≡ false }
    ensures { (result ≡ values_spot content.now.bytes.now (values_of name.now (reduced raw.now))) × LowSpot result }
{
    let n = contents::normalise(raw, room);
    if contents::never_cut(name) {
        return spot_in_one(&room[0..n], content);
    }
    spot_in_pieces(&room[0..n], content)
}

// In a field, by its name as it is matched.
fn spot_in_field(name: &[u8], raw: &[u8], patterns: &RowPatterns<'_>, room: &mut [u8]) -> Spot
    requires raw_len_bound { (length raw.now ≤ 65535) × (length raw.now ≤ length room.old) }
    requires for_names { patterns.now.name.for_names ≡ true }
    ensures { (result ≡ item_spot true patterns.now.name.bytes.now (is_some patterns.now.content) (content_bytes patterns.now.content) name.now (values_of name.now (reduced raw.now))) × LowSpot result }
{
    if !patterns.name.meets(name) {
        return no_spot();
    }
    let Some(content) = patterns.content else {
        return bare_spot();
    };
    spot_in_values(name, raw, &content, room)
}

fn shown_in(field: usize, x: Spot) -> Shown
    ensures { result ≡ shown_in field x }
{
    Shown {
        found: true,
        field,
        value: x.value,
        start: x.start,
        size: x.size,
    }
}

// The first field of a request with a spot in it.
pub fn show_fields(
    request: &ReadableRequest<'_>,
    patterns: &RowPatterns<'_>,
    room: &mut [u8],
) -> Shown
    requires room_for_each { length request.now.bytes.now ≤ length room.old }
    requires for_names { patterns.now.name.for_names ≡ true }
    ensures { (result ≡ first_shown (field_spot patterns.now.name.bytes.now (is_some patterns.now.content) (content_bytes patterns.now.content)) 0 (request_of request.now.bytes.now).fields) × LowShown result }
{
    let long = contents::long_names();
    for i in 0..request.places.fields {
        let field = request.field(i);
        let name = contents::as_matched(field.name, &long);
        let x = spot_in_field(name, field.value, patterns, room);
        if x.found {
            return shown_in(i, x);
        }
    }
    none_shown()
}

// ---- lines of the body

// In a line that is a field: its type and its value, both as written.
fn spot_in_line(kind: &[u8], value: &[u8], patterns: &RowPatterns<'_>) -> Spot
    requires value_len_bound { length value.now ≤ 65535 }
    requires written { patterns.now.name.for_names ≡ false }
    ensures { (result ≡ item_spot false patterns.now.name.bytes.now (is_some patterns.now.content) (content_bytes patterns.now.content) kind.now (value.now ∷ [])) × LowSpot result }
{
    if !patterns.name.meets(kind) {
        return no_spot();
    }
    let Some(content) = patterns.content else {
        return bare_spot();
    };
    spot_in_one(value, &content)
}

// The first line of a body that is a field with a spot in it. Only lines that are fields are counted.
pub fn show_lines(body: &[u8], patterns: &RowPatterns<'_>) -> Shown
    requires body_len_bound { length body.now ≤ 65535 }
    requires written { patterns.now.name.for_names ≡ false }
    ensures { (result ≡ first_shown (line_spot patterns.now.name.bytes.now (is_some patterns.now.content) (content_bytes patterns.now.content)) 0 (session_lines body.now)) × LowShown result }
{
    let mut i: usize = 0;
    let mut at = 0;
    while let Some(line) = contents::next_field_line(body, at) {
        let x = spot_in_line(line.kind, line.value, patterns);
        if x.found {
            return shown_in(i, x);
        }
        at = line.next;
        i += 1;
    }
    none_shown()
}
