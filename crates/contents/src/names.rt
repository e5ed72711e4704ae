// Header names: the short ones, and those whose values are never cut.
ghost use Rattle.std.specs.Prelude.{◌≡◌, ◌≤◌, ◌<◌, get_or, MatchOption};
ghost use Rattle.contents.specs.Names.{name_as_matched};
ghost use Rattle.contents.specs.Inner.Steps.{short_place, long_name, long_names, long_starts};
ghost use Rattle.contents.specs.Values.{never_cut};

// Where a name stands in the table of ten short names, in either case; none where it is none of them. A name of more than one byte is
// told by its length alone.
fn short_place(written: &[u8]) -> Option<usize>
    ensures { MatchOption result (10 ≡ short_place written.now) (λ k. (k < 10) × (k ≡ short_place written.now)) }
{
    if written.len() != 1 {
        return None;
    }
    let letter = octets::lower_of(written[0]);
    b"imelcfsktv".iter().position(|name| *name == letter)
}

// The ten long names one after the other, in the table's order. A caller makes them once and lends them to `as_matched`, which can't
// answer with a part of its own constant.
pub fn long_names() -> [u8; 81]
    ensures { result ≡ long_names }
{
    *b"Call-IDContactContent-EncodingContent-LengthContent-TypeFromSubjectSupportedToVia"
}

// Where name k of the ten begins in them; at 10 where the last ends.
fn long_start(k: usize) -> usize
    requires { k ≤ 10 }
    ensures { result ≡ get_or long_starts k 0 }
{
    let starts = [0usize, 7, 14, 30, 44, 56, 60, 67, 76, 78, 81];
    starts[k]
}

fn long_name(place: usize, long: &[u8]) -> &[u8]
    requires { (place < 10) × (long.now ≡ long_names) }
    ensures { result.now ≡ long_name place }
{
    let a = long_start(place);
    let e = long_start(place + 1);
    &long[a..e]
}

// A written name as it is matched. "Before matching, the one-letter names of RFC 3261 become the long ones" (change request 1).
pub fn as_matched<'a>(written: &'a [u8], long: &'a [u8]) -> &'a [u8]
    requires { long.now ≡ long_names }
    ensures { result.now ≡ name_as_matched written.now }
{
    match short_place(written) {
        Some(place) => long_name(place, long),
        None => written,
    }
}

// "Never cut: .., in any case" (document 01), of a name as it is matched: "The rule on fields never cut uses long names too" (change
// request 1).
pub fn never_cut(name: &[u8]) -> bool
    ensures { result ≡ never_cut name.now }
{
    octets::same_letters(name, b"Authorization")
        || octets::same_letters(name, b"Proxy-Authorization")
        || octets::same_letters(name, b"WWW-Authenticate")
        || octets::same_letters(name, b"Proxy-Authenticate")
        || octets::same_letters(name, b"Date")
        || octets::same_letters(name, b"Subject")
}
