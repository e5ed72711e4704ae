// Section four: the criteria.
#![tactic(auto, unfolding(crate::specs::Inner::Places::row_start, crate::specs::Inner::Places::row_count, crate::specs::Inner::Places::trigger, crate::specs::Inner::Places::rest))]

ghost use Rattle.std.specs.Prelude.{◌≡◌, ◌≤◌};
ghost use Rattle.cells.specs.Inner.Answers.{field_out};
ghost use Rattle.cells.specs.Inner.Places.{texts, ends, long};
ghost use Rattle.entries.specs.Inner.Places.{row_start, right_count, row_count, trigger, rest, reading_criteria};

use crate::Trigger;
use cells::{Fault, Refusal, StringTable, exactly_at, long_at, must, priority, up_to, word_at};

// A trigger's first row: 0 for form 2.
fn row_start(s: &[u8], form: usize, at: usize) -> Result<usize, Refusal>
    requires { at ≤ 200000 }
    ensures { field_out result ≡ row_start s.now form at }
{
    if form == 2 {
        exactly_at(s, 0, at)
    } else {
        word_at(s, at)
    }
}

// Whether n rows from `first` are right for the form.
fn right_count(rows: usize, form: usize, first: usize, n: usize) -> bool
    ensures { result ≡ right_count rows form first n }
{
    if form == 2 {
        return n == 0;
    }
    1 <= n && n <= 32 && first <= rows && n <= rows - first
}

fn row_count(s: &[u8], rows: usize, form: usize, first: usize, at: usize) -> Result<usize, Refusal>
    requires { at ≤ 200000 }
    ensures { field_out result ≡ row_count s.now rows form first at }
{
    let n = word_at(s, at)?;
    must(right_count(rows, form, first, n), Fault::OutOfRange, at)?;
    Ok(n)
}

fn trigger_at(s: &[u8], rows: usize, at: usize) -> Result<Trigger, Refusal>
    requires { at ≤ 190000 }
    ensures { field_out result ≡ trigger s.now rows at }
{
    let form = up_to(s, at, 2)?;
    let first = row_start(s, form, at + 1)?;
    let count = row_count(s, rows, form, first, at + 3)?;
    Ok(Trigger { form, first, count })
}

// A criterion after its priority: where it ends, or the refusal.
fn rest_at(strings: &StringTable<'_>, rows: usize, at: usize) -> Result<usize, Refusal>
    requires { at ≤ 180000 }
    ensures { let t = strings.now in field_out result ≡ ends (rest t.image.now (texts t.image.now t.count t.table.now) rows (long t.image.now at) at) }
{
    let s = strings.image;
    let _part = up_to(s, at + 4, 2)?;
    let _trigger = trigger_at(s, rows, at + 5)?;
    let _server = strings.index_at(0, at + 10)?;
    let _handling = up_to(s, at + 12, 2)?;
    let _info = strings.index_or_absent(5, at + 13)?;
    Ok(at + 15)
}

// Section 4 after its count: where the criteria end, or the first refusal. A criterion whose priority stands earlier too is
// found by a scan over the pairs, and the scan is left from inside with its place.
pub fn criteria(
    strings: &StringTable<'_>,
    rows: usize,
    n: usize,
    start: usize,
) -> Result<usize, Refusal>
    requires { (start ≤ 150000) × (n ≤ 64) }
    ensures { let t = strings.now in field_out result ≡ ends (reading_criteria t.image.now (texts t.image.now t.count t.table.now) rows n start) }
{
    let s = strings.image;
    let mut at = start;
    let mut j: usize = 0;
    let found = 'scan: loop {
        if n <= j {
            break 'scan at;
        }
        let p = long_at(s, at)?;
        for i in 0..j {
            if priority(s, start + 15 * i) == p {
                break 'scan at;
            }
        }
        at = rest_at(strings, rows, at)?;
        j += 1;
    };
    must(n <= j, Fault::RepeatedPriority, found)?;
    Ok(found)
}
