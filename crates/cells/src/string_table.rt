// Section one: the strings, and the fields that name one.
#![tactic(auto, unfolding(crate::specs::Inner::Places::whole, crate::specs::Inner::Places::sized, crate::specs::Inner::Places::named, crate::specs::Inner::Places::named_or_absent))]

ghost use Rattle.std.specs.Prelude.{◌≡◌, List, ℕ, ◌+◌, ◌≤◌, length};
ghost use Rattle.octets.specs.Inner.Tables.{Classes};
ghost use Rattle.octets.specs.Lists.{pick};
ghost use Rattle.cells.specs.Inner.Places.{sized, named, named_or_absent, usable, uses_of, word, text_at, texts};
ghost use Rattle.cells.specs.Inner.Answers.{field_out, Tabled, Filled, Table, Known};

use crate::fields::{count_at, must, number, whole, word_at};
use crate::{Fault, Refusal, Suits};

// The length of the string at `at`, which lies whole in the image.
fn sized_at(s: &[u8], at: usize) -> Result<usize, Refusal>
    requires { at ≤ 65535 }
    ensures { field_out result ≡ sized s.now at }
{
    let n = count_at(s, at, 1024)?;
    whole(s, at + 2, n)?;
    Ok(n)
}

// Section 1 after its count: the offset of each string goes into the table.
pub fn strings(s: &[u8], n: usize, table: &mut [u16; 1024]) -> Result<usize, Refusal>
    requires { (length s.now ≤ 32768) × (n ≤ 1024) × (length table.old ≡ 1024) }
    ensures tabled { Tabled result s.now n table.new }
    ensures filled { Filled result s.now n table.old table.new }
{
    let mut at: usize = 3;
    for k in 0..n {
        let len = sized_at(s, at)?;
        table[k] = at as u16;
        at = at + 2 + len;
    }
    Ok(at)
}

// The bytes of the string at an offset: a part of the image, no copy.
pub fn text(s: &[u8], o: usize) -> &[u8]
    requires { o + 2 + word s.now o ≤ length s.now }
    ensures { result.now ≡ text_at s.now o }
{
    let n = number(s, o);
    let a = o + 2;
    let e = a + n;
    &s[a..e]
}

// What a string may be used for.
fn uses_of(classes: &[u8; 256], t: &[u8]) -> Suits
    requires { Classes classes.now }
    ensures { result ≡ uses_of t.now }
{
    Suits {
        server: !t.is_empty(),
        method: octets::is_token(classes, t),
        pattern: basic::is_pattern(t),
    }
}

// Judges each string once, however many fields name it.
pub fn judge_strings(s: &[u8], table: &[u16; 1024], n: usize, uses: &mut [Suits; 1024])
    requires { Table s.now n table.now × (length uses.old ≡ 1024) }
    ensures { Known s.now n table.now uses.new }
{
    let classes = octets::class_table();
    for k in 0..n {
        let t = text(s, usize::from(table[k]));
        uses[k] = uses_of(&classes, t);
    }
}

// Whether a string may be used so: 0 RequestURI or server, 1 Method, 2 and 4 patterns, 5 service information.
#[tactic(auto, unfolding(crate::specs::Inner::Places::usable, crate::specs::Inner::Places::uses_of))]
fn fits_use(uses: Suits, purpose: usize) -> bool
    ensures { (t : List ℕ) → uses ≡ uses_of t → result ≡ usable purpose t }
{
    match purpose {
        1 => uses.method,
        2 | 4 => uses.pattern,
        5 => true,
        _ => uses.server,
    }
}

// The strings of an image: where each lies, and what it suits. The table is named for the promise alone.
#[derive(Clone, Copy)]
pub struct StringTable<'a> {
    pub image: &'a [u8],
    pub table: &'a [u16; 1024],
    pub suits: &'a [Suits; 1024],
    pub count: usize,
    ghost known: { Known image.now count table.now suits.now },
}

impl<'a> StringTable<'a> {
    // A string index in the table, of a string that may be used so.
    pub fn index_at(&self, purpose: usize, at: usize) -> Result<usize, Refusal>
        requires { at ≤ 200000 }
        ensures { let t = self.now in field_out result ≡ named t.image.now (texts t.image.now t.count t.table.now) purpose at }
    {
        let i = word_at(self.image, at)?;
        must(i < self.count, Fault::OutOfRange, at)?;
        must(fits_use(self.suits[i], purpose), Fault::WrongString, at)?;
        Ok(i)
    }

    // A string index of a string that may be used so, or 65535.
    pub fn index_or_absent(&self, purpose: usize, at: usize) -> Result<usize, Refusal>
        requires { at ≤ 200000 }
        ensures { let t = self.now in field_out result ≡ named_or_absent t.image.now (texts t.image.now t.count t.table.now) purpose at }
    {
        let i = word_at(self.image, at)?;
        if i == 65535 {
            return Ok(i);
        }
        self.index_at(purpose, at)
    }
}
