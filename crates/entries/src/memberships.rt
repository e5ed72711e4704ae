// Section three: the memberships, and how many each row has.
#![tactic(auto, unfolding(crate::specs::Inner::Places::reading_member))]

ghost use Rattle.std.specs.Prelude.{◌≡◌, ◌≤◌, get_or, length, replicate};
ghost use Rattle.cells.specs.Inner.Answers.{field_out};
ghost use Rattle.cells.specs.Inner.Places.{ends};
ghost use Rattle.entries.specs.Inner.Places.{reading_member, comes, few, placed, reading_placed};
ghost use Rattle.entries.specs.Inner.Answers.{member_out, Counted};

use crate::Member;
use cells::{Fault, Refusal, must, word_at};

// The membership at `at`, which comes after the last one.
fn member_at(s: &[u8], rows: usize, last: Option<Member>, at: usize) -> Result<Member, Refusal>
    requires { at ≤ 150000 }
    ensures { member_out at result ≡ reading_member s.now rows (comes last) at }
{
    let row = word_at(s, at)?;
    must(row < rows, Fault::OutOfRange, at)?;
    let group = word_at(s, at + 2)?;
    let m = Member { row, group };
    must(last.is_none_or(|l| l < m), Fault::OutOfRange, at)?;
    Ok(m)
}

// The memberships, from a place on: how many each row has goes into `counts`.
pub fn members(s: &[u8], n: usize, start: usize, counts: &mut [u16]) -> Result<usize, Refusal>
    requires { (start ≤ 60000) × (n ≤ 16384) × (counts.old ≡ replicate (length counts.old) 0) }
    ensures { Counted result s.now (length counts.old) n start counts.new }
{
    let rows = counts.len();
    let mut last = None;
    for k in 0..n {
        let m = member_at(s, rows, last, start + 4 * k)?;
        counts[m.row] += 1;
        last = Some(m);
    }
    Ok(start + 4 * n)
}

// "Every row has 1 to 8"
fn is_few(count: u16) -> bool
    ensures { result ≡ few count }
{
    (1..=8).contains(&count)
}

// After section 3: every row has 1 to 8 memberships.
pub fn all_placed(counts: &[u16], start: usize) -> Result<(), Refusal>
    requires { (length counts.now ≤ 2048) × (start ≤ 60000) }
    ensures { field_out result ≡ placed (λ k. get_or counts.now k 0) (length counts.now) 0 start }
{
    for (k, count) in counts.iter().enumerate() {
        must(is_few(*count), Fault::OutOfRange, start + 7 * k)?;
    }
    Ok(())
}

// Section 3 after its count: where the memberships end. Every row, the first of them at `first`, has 1 to 8.
pub fn placed_members(
    s: &[u8],
    rows: usize,
    n: usize,
    start: usize,
    first: usize,
) -> Result<usize, Refusal>
    requires { (start ≤ 60000) × (first ≤ 60000) × (rows ≤ 2048) × (n ≤ 16384) }
    ensures { field_out result ≡ ends (reading_placed s.now rows n start first) }
{
    let mut room = [0u16; 2048];
    let counts = &mut room[..rows];
    let end = members(s, n, start, counts)?;
    all_placed(counts, first)?;
    Ok(end)
}
