// The lines of the fields: where each ends, and whether it is one.
ghost use Rattle.std.specs.Prelude.{◌≡◌, ◌+◌, ◌≤◌, ◌<◌, T, length, drop};
ghost use Rattle.octets.specs.Inner.Tables.{Classes};
ghost use Rattle.octets.specs.Lists.{every};
ghost use Rattle.cuts.specs.Inner.Searching.{first};
ghost use Rattle.request.specs.Request.{paired};
ghost use Rattle.request.specs.Inner.Steps.{line_break, is_field, lines_from};

use crate::start_lines::is_word;

// Whether a line with its folds is a field: name token, any SP or HTAB, colon, value.
fn is_field(table: &[u8; 256], l: &[u8]) -> bool
    requires { Classes table.now }
    ensures { result ≡ is_field l.now }
{
    let k = cuts::place_of(l, 0, b':');
    if l.len() <= k {
        return false;
    }
    let n = cuts::trimmed_end(&l[0..k]);
    is_word(table, false, &l[0..n])
}

// Whether a field's line ends at i: CR LF with no SP or HTAB after it.
fn line_break_at(h: &[u8], i: usize) -> bool
    requires { i < length h.now }
    ensures { result ≡ line_break (drop i h.now) }
{
    if h[i] != b'\r' {
        return false;
    }
    if octets::byte_at(h, i + 1) != b'\n' {
        return false;
    }
    if cuts::is_white(octets::byte_at(h, i + 2)) {
        return false;
    }
    true
}

// The end of the line, with the lines that continue it, that starts at a place.
pub(crate) fn line_end(h: &[u8], from: usize) -> usize
    requires { from ≤ length h.now }
    ensures { result ≡ from + first line_break (drop from h.now) }
{
    let mut k = cuts::place_of(h, from, b'\r');
    while k < h.len() {
        if line_break_at(h, k) {
            return k;
        }
        k = cuts::place_of(h, k + 1, b'\r');
    }
    k
}

// Whether every line from a place on is a field.
pub(crate) fn are_fields(table: &[u8; 256], h: &[u8], from: usize) -> bool
    requires classes { Classes table.now }
    requires from_in_bounds { (from ≤ length h.now + 2) × (length h.now ≤ 65535) × T (paired 0 (drop from h.now)) }
    ensures { result ≡ every is_field (lines_from h.now from) }
{
    let mut p = from;
    while p <= h.len() {
        let e = line_end(h, p);
        let right = is_field(table, &h[p..e]);
        p = e + 2;
        if !right {
            return false;
        }
    }
    true
}
