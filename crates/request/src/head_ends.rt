// The end of the head.
ghost use Rattle.std.specs.Prelude.{◌≡◌, ℕ, ◌+◌, ◌-◌, ◌*◌, ◌/◌, ◌≤◌, ◌<◌, length, get_or, drop};
ghost use Rattle.cuts.specs.Cutting.{begins};
ghost use Rattle.request.specs.Inner.Places.{head_of};
ghost use Rattle.request.specs.Request.{empty_line};

// Whether CR LF CR LF stands at i.
fn empty_line_at(s: &[u8], i: usize) -> bool
    requires { i < length s.now }
    ensures { result ≡ begins empty_line (drop i s.now) }
{
    if s[i] != b'\r' {
        return false;
    }
    if octets::byte_at(s, i + 1) != b'\n' {
        return false;
    }
    if octets::byte_at(s, i + 2) != b'\r' {
        return false;
    }
    if octets::byte_at(s, i + 3) != b'\n' {
        return false;
    }
    true
}

// The first of the places from, from + 2 and so on at which no byte above 13 stands, be it past the end. Most bytes of a head are above
// 13 and so neither CR nor LF.
fn every_second(s: &[u8], from: usize) -> usize
    ensures value { result ≡ from + 2 * ((result - from) / 2) }
    ensures by_index { (n : ℕ) → from + 2 * n < result → 13 < get_or s.now (from + 2 * n) 0 }
    ensures result_bound { get_or s.now result 0 ≤ 13 }
{
    let mut k = from;
    while k < s.len() {
        if s[k] <= b'\r' {
            return k;
        }
        k += 2;
    }
    k
}

// The place of the first CR LF CR LF, or the length where there is none. "Look at every second byte first" (document 02, change request
// 4): of each such mark one of the first two bytes is looked at, and the bytes beside it only where it is CR or LF.
pub fn head_end(s: &[u8]) -> usize
    ensures { result ≡ length (head_of s.now) }
{
    let mut k = every_second(s, 1);
    while k < s.len() {
        if s[k] == b'\n' {
            if empty_line_at(s, k - 1) {
                return k - 1;
            }
            k = every_second(s, k + 2);
        } else {
            if empty_line_at(s, k) {
                return k;
            }
            k = every_second(s, k + 2);
        }
    }
    s.len()
}
