// Sets of bytes on a name.
ghost use Rattle.std.specs.Prelude.{◌≡◌, Bool, ◌||◌, ℕ};
ghost use Rattle.octets.specs.Bytes.{lower, upper};
ghost use Rattle.basic.specs.Inner.Sets.{word, words};

// The lowest 26 bits, one for each letter.
const LETTERS: u64 = (1 << 26) - 1;

// A set's second word on a name: "an element meets a byte if it meets its lower or its upper form". `A` is bit 1, `a` bit 33.
pub(crate) fn folded_word(w: u64) -> u64
    ensures { (f : ℕ → Bool) → w ≡ word f 1 → result ≡ word (λ b. f (lower b) || f (upper b)) 1 }
{
    let found = ((w >> 1) | (w >> 33)) & LETTERS;
    w | found << 1 | found << 33
}

// The set on a name: no other word has letters.
pub(crate) fn folded(set: [u64; 4]) -> [u64; 4]
    ensures { (f : ℕ → Bool) → set ≡ words f → result ≡ words (λ b. f (lower b) || f (upper b)) }
{
    let letters = folded_word(set[1]);
    [set[0], letters, set[2], set[3]]
}
