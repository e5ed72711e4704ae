// Cutting and searching bytes: the place of a byte, and white space at both ends. The definitions stand in specs/.
#![tactic(auto)]

ghost use Rattle.std.specs.Prelude.{◌≡◌, ◌∷◌, [], ◌+◌, ◌≤◌, length, drop};
ghost use Rattle.octets.specs.Bytes.{white};
ghost use Rattle.cuts.specs.Cutting.{begins};
ghost use Rattle.cuts.specs.Inner.Searching.{first, text_here};
ghost use Rattle.cuts.specs.Trimming.{trim_right};

// The place of the first byte b from a place on, or the length where there is none.
pub fn place_of(s: &[u8], from: usize, b: u8) -> usize
    requires { from ≤ length s.now }
    ensures { result ≡ from + first (begins (b ∷ [])) (drop from s.now) }
{
    // By the index alone: `position` counts from `from`, and with its count beside the index the loop has a step more.
    for i in from..s.len() {
        if s[i] == b {
            return i;
        }
    }
    s.len()
}

// SP or HTAB.
pub fn is_white(b: u8) -> bool
    ensures { result ≡ white b }
{
    (b == b' ') | (b == b'\t')
}

// How many bytes are left of t without SP and HTAB at its right end.
pub fn trimmed_end(t: &[u8]) -> usize
    ensures { result ≡ length (trim_right t.now) }
{
    match t.iter().rev().position(|b| !is_white(*b)) {
        Some(k) => t.len() - k,
        None => 0,
    }
}

// How many SP and HTAB stand at the left end.
pub fn blanks(t: &[u8]) -> usize
    ensures { result ≡ first text_here t.now }
{
    t.iter().position(|b| !is_white(*b)).unwrap_or(t.len())
}
