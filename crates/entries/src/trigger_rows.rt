// Section two: the trigger rows.
#![tactic(auto, unfolding(crate::specs::Inner::Places::first_of_row, crate::specs::Inner::Places::second_of_row, crate::specs::Inner::Places::reading_row))]

ghost use Rattle.std.specs.Prelude.{◌≡◌, ◌≤◌};
ghost use Rattle.cells.specs.Inner.Answers.{field_out};
ghost use Rattle.cells.specs.Inner.Places.{texts, ends};
ghost use Rattle.entries.specs.Inner.Places.{reading_rows, first_of_row, second_of_row, reading_row};

use cells::{Refusal, StringTable, count_at, exactly_at, up_to};

// A row's first: the case 0..3, or a string index.
fn row_first(strings: &StringTable<'_>, kind: usize, at: usize) -> Result<usize, Refusal>
    requires { at ≤ 200000 }
    ensures { let t = strings.now in field_out result ≡ first_of_row t.image.now (texts t.image.now t.count t.table.now) kind at }
{
    if kind == 3 {
        count_at(strings.image, at, 3)
    } else {
        strings.index_at(kind, at)
    }
}

// A row's second: the Content, which only a SIPHeader and a SessionDescription have.
fn row_second(strings: &StringTable<'_>, kind: usize, at: usize) -> Result<usize, Refusal>
    requires { at ≤ 200000 }
    ensures { let t = strings.now in field_out result ≡ second_of_row t.image.now (texts t.image.now t.count t.table.now) kind at }
{
    if kind == 2 || kind == 4 {
        strings.index_or_absent(kind, at)
    } else {
        exactly_at(strings.image, 65535, at)
    }
}

// A whole row at `at`: where it ends, or the refusal.
fn row_at(strings: &StringTable<'_>, at: usize) -> Result<usize, Refusal>
    requires { at ≤ 65520 }
    ensures { let t = strings.now in field_out result ≡ ends (reading_row t.image.now (texts t.image.now t.count t.table.now) at) }
{
    let s = strings.image;
    let _negated = up_to(s, at, 1)?;
    let kind = up_to(s, at + 1, 4)?;
    let _first = row_first(strings, kind, at + 2)?;
    let _second = row_second(strings, kind, at + 4)?;
    let _set = up_to(s, at + 6, 6)?;
    Ok(at + 7)
}

// Section 2 after its count: where the rows end. A call: within the judgement of a whole image its loop would share the registers, and
// takes a tenth more.
#[inline(never)]
pub fn rows(strings: &StringTable<'_>, count: usize, start: usize) -> Result<usize, Refusal>
    requires { (start ≤ 40000) × (count ≤ 2048) }
    ensures { let t = strings.now in field_out result ≡ ends (reading_rows t.image.now (texts t.image.now t.count t.table.now) count start) }
{
    let mut at = start;
    for _ in 0..count {
        at = row_at(strings, at)?;
    }
    Ok(at)
}
