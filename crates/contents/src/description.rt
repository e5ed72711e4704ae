// Whether the value of a field says that the body is a session description (document 02, change request 5).
ghost use Rattle.std.specs.Prelude.{◌≡◌, ◌≤◌, length};
ghost use Rattle.contents.specs.Description.{says_description, one_description};
ghost use Rattle.contents.specs.Inner.Places.{values_from};

use crate::pieces::next_value;

// "up to the first semicolon and trimmed, is `application/sdp` in any case".
fn says_description(v: &[u8]) -> bool
    ensures { result ≡ says_description v.now }
{
    let k = cuts::place_of(v, 0, b';');
    let e = cuts::trimmed_end(&v[0..k]);
    let a = cuts::blanks(&v[0..e]);
    octets::same_letters(&v[a..e], b"application/sdp")
}

// Whether a reduced value is one value after the cut, and that says so.
pub fn is_description(v: &[u8]) -> bool
    requires { length v.now ≤ 65535 }
    ensures { result ≡ one_description (values_from v.now 0) }
{
    let x = next_value(v, 0);
    let next = x.next;
    if next <= v.len() {
        return false;
    }
    let a = x.start;
    let e = x.end;
    says_description(&v[a..e])
}
