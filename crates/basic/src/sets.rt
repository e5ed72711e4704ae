// Sets of bytes: four words of 64 bits.
ghost use Rattle.std.specs.Prelude.{◌≡◌, Bool, not, ◌&&◌, ◌||◌, ℕ, ◌+◌, eqb, leb};
ghost use Rattle.octets.specs.Inner.Masks.{mask};
ghost use Rattle.octets.specs.Bytes.{within};
ghost use Rattle.basic.specs.Inner.Sets.{word, words};

// All bits of a word.
const ALL: u64 = u64::MAX;

// The set of one byte.
pub(crate) fn only(c: u8) -> [u64; 4]
    ensures { result ≡ words (eqb c) }
{
    let mut set = [0u64; 4];
    let w = c as usize / 64;
    set[w] = 1 << (c % 64);
    set
}

// Of the 64 bytes from `from` on, those that are not below lo.
fn not_below(from: u8, lo: u8) -> u64
    ensures { result ≡ mask 64 (λ k. leb lo (from + k)) }
{
    if lo <= from {
        return ALL;
    }
    let k = lo - from;
    if k < 64 {
        return ALL << k;
    }
    0
}

// And those that are not above hi.
fn not_above(from: u8, hi: u8) -> u64
    ensures { result ≡ mask 64 (λ k. leb (from + k) hi) }
{
    if hi < from {
        return 0;
    }
    let k = hi - from;
    if k < 64 {
        return ALL >> (63 - k);
    }
    ALL
}

// Those from lo to hi.
fn span(from: u8, lo: u8, hi: u8) -> u64
    ensures { result ≡ mask 64 (λ k. within lo hi (from + k)) }
{
    not_below(from, lo) & not_above(from, hi)
}

// The set with the bytes from lo to hi.
pub(crate) fn add_range(set: [u64; 4], lo: u8, hi: u8) -> [u64; 4]
    ensures { (f : ℕ → Bool) → set ≡ words f → result ≡ words (λ b. f b || within lo hi b) }
{
    let a = set[0] | span(0, lo, hi);
    let b = set[1] | span(64, lo, hi);
    let c = set[2] | span(128, lo, hi);
    let d = set[3] | span(192, lo, hi);
    [a, b, c, d]
}

// The bytes that are not in the set. "`.` and a `^` list never meet byte 0."
pub(crate) fn others(set: [u64; 4]) -> [u64; 4]
    ensures { (f : ℕ → Bool) → set ≡ words f → result ≡ words (λ b. not (eqb b 0) && not (f b)) }
{
    [(set[0] | 1) ^ ALL, set[1] ^ ALL, set[2] ^ ALL, set[3] ^ ALL]
}
