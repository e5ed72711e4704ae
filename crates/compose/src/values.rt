// The values of a text: numbers, and strings with their entities replaced. Each takes the bytes between the tags.
ghost use Rattle.std.specs.Prelude.{◌≡◌, ◌-◌, ◌+◌, ◌*◌, ◌≤◌, ◌<◌, length, drop};
ghost use Rattle.std.proofs.Math.Seq.{paste};
ghost use Rattle.octets.specs.Lists.{same};
ghost use Rattle.compose.specs.Inner.Values.{capped, value_of, entity_of, character_of, decoded};

use octets::byte_at;

// What a digit says.
fn digit_of(b: u8) -> u64
    ensures { (result ≡ b - 48) × (result < 256) }
{
    u64::from(b.saturating_sub(b'0'))
}

// One digit more, as far as numbers are told apart.
fn with_digit(n: u64, d: u64) -> u64
    requires { (n ≤ 4294967296) × (d < 256) }
    ensures { result ≡ capped (n * 10 + d) }
{
    let v = n * 10 + d;
    v.min(4294967296)
}

// The number that digits say, by its exact value, or 4,294,967,296 where it is larger.
pub fn value_of(t: &[u8]) -> u64
    ensures { result ≡ value_of t.now }
{
    let mut n = 0;
    for b in t {
        n = with_digit(n, digit_of(*b));
    }
    n
}

// A character of a string: the byte that it says, and how many bytes say it.
#[derive(Clone, Copy)]
pub struct Character {
    pub byte: u8,
    pub width: usize,
}

// An entity, from behind its `&`.
fn entity_at(t: &[u8], i: usize) -> Character
    requires { i ≤ length t.now }
    ensures { result ≡ entity_of (drop i t.now) }
{
    match byte_at(t, i) {
        b'l' => Character {
            byte: b'<',
            width: 4,
        },
        b'g' => Character {
            byte: b'>',
            width: 4,
        },
        b'q' => Character {
            byte: b'"',
            width: 6,
        },
        _ if byte_at(t, i + 1) == b'm' => Character {
            byte: b'&',
            width: 5,
        },
        _ => Character {
            byte: b'\'',
            width: 6,
        },
    }
}

// The character at a place.
fn character_at(t: &[u8], i: usize) -> Character
    requires { i < length t.now }
    ensures { result ≡ character_of (drop i t.now) }
{
    match t[i] {
        b'&' => entity_at(t, i + 1),
        byte => Character { byte, width: 1 },
    }
}

// How long the string is.
pub fn text_length(t: &[u8]) -> usize
    ensures { result ≡ length (decoded t.now) }
{
    let mut n: usize = 0;
    let mut i: usize = 0;
    while i < t.len() {
        let c = character_at(t, i);
        let w = c.width;
        n += 1;
        if t.len() - i <= w {
            return n;
        }
        i += w;
    }
    n
}

// Whether the string is these bytes.
pub fn same_text(t: &[u8], x: &[u8]) -> bool
    ensures { result ≡ same (decoded t.now) x.now }
{
    let mut i: usize = 0;
    let mut j: usize = 0;
    while i < t.len() {
        if x.len() <= j {
            return false;
        }
        let c = character_at(t, i);
        let w = c.width;
        let a = c.byte;
        let b = x[j];
        if a != b {
            return false;
        }
        j += 1;
        if t.len() - i <= w {
            return j == x.len();
        }
        i += w;
    }
    j == x.len()
}

// Writes the string from a place on; what stands behind it.
pub fn put_text(t: &[u8], dst: &mut [u8], to: usize) -> usize
    requires { to + length (decoded t.now) ≤ length dst.old }
    ensures { (result ≡ to + length (decoded t.now)) × (dst.new ≡ paste dst.old to (decoded t.now) (length (decoded t.now))) }
{
    let mut j = to;
    let mut i: usize = 0;
    while i < t.len() {
        let c = character_at(t, i);
        let w = c.width;
        let b = c.byte;
        dst[j] = b;
        j += 1;
        if t.len() - i <= w {
            return j;
        }
        i += w;
    }
    j
}
