// The fields of a request and the lines of its body against a row's prepared patterns. The definitions stand in specs/.
#![tactic(auto)]

ghost use Rattle.std.specs.Prelude.{◌≡◌, true, false, ◌∷◌, [], ◌≤◌, length, is_some};
ghost use Rattle.contents.specs.Body.{session_lines};
ghost use Rattle.contents.specs.Inner.Places.{values_from};
ghost use Rattle.contents.specs.Values.{reduced, values_of};
ghost use Rattle.request.specs.Inner.Places.{request_of};
ghost use Rattle.trials.specs.Inner.Trying.{values_row, item_row, field_row, line_row, all_rows, most_trials};
ghost use Rattle.trials.specs.Inner.Patterns.{content_bytes};

mod row_patterns;

pub use crate::row_patterns::RowPatterns;
use pattern::Prepared;
use request::ReadableRequest;

// Whether a row fits, and the trials it took.
#[derive(Clone, Copy)]
pub struct Verdict {
    pub fits: bool,
    pub trials: u32,
}

// ---- one field

// The values that a reduced value is cut into. All are tried, also after one has matched.
fn try_pieces(v: &[u8], content: &Prepared<'_>) -> Verdict
    requires v_len_bound { length v.now ≤ 65535 }
    requires written { content.now.for_names ≡ false }
    ensures { (result ≡ values_row content.now.bytes.now (values_from v.now 0)) × (result.trials ≤ 65536) }
{
    let mut fits = false;
    let mut trials: u32 = 0;
    let mut at = 0;
    while let Some(value) = contents::next_cut(v, at) {
        let m = content.meets(value.bytes);
        at = value.next;
        fits |= m;
        trials += 1;
    }
    Verdict { fits, trials }
}

// The values of a field: its raw value is reduced into the lent room once, and cut unless its name says not.
fn try_values(name: &[u8], raw: &[u8], content: &Prepared<'_>, room: &mut [u8]) -> Verdict
    requires raw_len_bound { (length raw.now ≤ 65535) × (length raw.now ≤ length room.old) }
    requires written { content.now.for_names ≡ false }
    ensures { (result ≡ values_row content.now.bytes.now (values_of name.now (reduced raw.now))) × (result.trials ≤ 65536) }
{
    let n = contents::normalise(raw, room);
    if contents::never_cut(name) {
        let m = content.meets(&room[0..n]);
        return Verdict { fits: m, trials: 1 };
    }
    try_pieces(&room[0..n], content)
}

// A field: its name, as it is matched, and with Content its values.
fn try_field(name: &[u8], raw: &[u8], patterns: &RowPatterns<'_>, room: &mut [u8]) -> Verdict
    requires raw_len_bound { (length raw.now ≤ 65535) × (length raw.now ≤ length room.old) }
    requires for_names { patterns.now.name.for_names ≡ true }
    ensures { (result ≡ item_row true patterns.now.name.bytes.now (is_some patterns.now.content) (content_bytes patterns.now.content) name.now (values_of name.now (reduced raw.now))) × (result.trials ≤ 65537) }
{
    if !patterns.name.meets(name) {
        return Verdict {
            fits: false,
            trials: 1,
        };
    }
    let Some(content) = patterns.content else {
        return Verdict {
            fits: true,
            trials: 1,
        };
    };
    let v = try_values(name, raw, &content, room);
    Verdict {
        fits: v.fits,
        trials: 1 + v.trials,
    }
}

// A SIPHeader row: every field, by its name as it is matched.
pub fn try_fields(
    request: &ReadableRequest<'_>,
    patterns: &RowPatterns<'_>,
    room: &mut [u8],
) -> Verdict
    requires room_for_each { length request.now.bytes.now ≤ length room.old }
    requires for_names { patterns.now.name.for_names ≡ true }
    ensures { (result ≡ all_rows (field_row patterns.now.name.bytes.now (is_some patterns.now.content) (content_bytes patterns.now.content)) (request_of request.now.bytes.now).fields) × (result.trials ≤ most_trials) }
{
    let long = contents::long_names();
    let mut fits = false;
    let mut trials: u32 = 0;
    for i in 0..request.places.fields {
        let field = request.field(i);
        let name = contents::as_matched(field.name, &long);
        let r = try_field(name, field.value, patterns, room);
        fits |= r.fits;
        trials += r.trials;
    }
    Verdict { fits, trials }
}

// ---- lines of the body

// A line that is a field: its type and, with Content, its value, both as written.
fn try_line(kind: &[u8], value: &[u8], patterns: &RowPatterns<'_>) -> Verdict
    requires { patterns.now.name.for_names ≡ false }
    ensures { result ≡ item_row false patterns.now.name.bytes.now (is_some patterns.now.content) (content_bytes patterns.now.content) kind.now (value.now ∷ []) }
{
    if !patterns.name.meets(kind) {
        return Verdict {
            fits: false,
            trials: 1,
        };
    }
    let Some(content) = patterns.content else {
        return Verdict {
            fits: true,
            trials: 1,
        };
    };
    let m = content.meets(value);
    Verdict { fits: m, trials: 2 }
}

// A SessionDescription row: every line of a body that is a field.
pub fn try_lines(body: &[u8], patterns: &RowPatterns<'_>) -> Verdict
    requires body_len_bound { length body.now ≤ 65535 }
    requires written { patterns.now.name.for_names ≡ false }
    ensures { (result ≡ all_rows (line_row patterns.now.name.bytes.now (is_some patterns.now.content) (content_bytes patterns.now.content)) (session_lines body.now)) × (result.trials ≤ most_trials) }
{
    let mut fits = false;
    let mut trials: u32 = 0;
    let mut at = 0;
    while let Some(line) = contents::next_field_line(body, at) {
        let r = try_line(line.kind, line.value, patterns);
        at = line.next;
        fits |= r.fits;
        trials += r.trials;
    }
    Verdict { fits, trials }
}
