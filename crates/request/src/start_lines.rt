// The start line: method, URI, version.
ghost use Rattle.std.specs.Prelude.{◌≡◌, not, ◌&&◌, ◌+◌, ◌<◌, length, take, drop};
ghost use Rattle.octets.specs.Inner.Tables.{Classes};
ghost use Rattle.octets.specs.Lists.{every, empty};
ghost use Rattle.cuts.specs.Inner.Parts.{part};
ghost use Rattle.request.specs.Request.{start_line, parts_right};
ghost use Rattle.request.specs.Inner.Steps.{word_byte, start_places};

// Where the method of a start line ends, and where its URI ends.
#[derive(Clone, Copy)]
pub(crate) struct StartPlaces {
    pub method: usize,
    pub uri: usize,
}

// A byte of a URI, or else of a token.
fn word_byte_is(table: &[u8; 256], uri: bool, b: u8) -> bool
    requires { Classes table.now }
    ensures { result ≡ word_byte uri b }
{
    let k = octets::class_in(table, b);
    if uri {
        return (k == 1) | (k == 3);
    }
    k == 1
}

// Whether the bytes are one or more, all of a URI, or else all of a token.
pub(crate) fn is_word(table: &[u8; 256], uri: bool, w: &[u8]) -> bool
    requires { Classes table.now }
    ensures { result ≡ (not (empty w.now) && every (word_byte uri) w.now) }
{
    if w.len() == 0 {
        return false;
    }
    for b in w {
        if !word_byte_is(table, uri, *b) {
            return false;
        }
    }
    true
}

// Whether a method, a URI and the version stand before, between and after the SPs at m and u.
fn start_parts_right(l: &[u8], m: usize, u: usize) -> bool
    requires { (m < u) × (u < length l.now) }
    ensures { result ≡ parts_right (take m l.now) (part l.now (m + 1) u) (drop (u + 1) l.now) }
{
    let table = octets::class_table();
    if !is_word(&table, false, &l[0..m]) {
        return false;
    }
    if !is_word(&table, true, &l[m + 1..u]) {
        return false;
    }
    octets::same_letters(&l[u + 1..], b"SIP/2.0")
}

pub(crate) fn start_line(l: &[u8]) -> Option<StartPlaces>
    ensures { result ≡ start_places (start_line l.now) }
{
    let m = cuts::place_of(l, 0, b' ');
    if l.len() <= m {
        return None;
    }
    let u = cuts::place_of(l, m + 1, b' ');
    if l.len() <= u {
        return None;
    }
    if start_parts_right(l, m, u) {
        return Some(StartPlaces { method: m, uri: u });
    }
    None
}
