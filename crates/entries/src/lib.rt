// Reads the rows, memberships and criteria of a profile image: section by section, and each by value at its place.
#![tactic(auto)]

ghost use Rattle.std.specs.Prelude.{◌≡◌, ◌+◌, ◌≤◌, length};
ghost use Rattle.entries.specs.Inner.Places.{row_numbers, member_numbers, trigger_numbers, criterion_numbers};

mod criteria_table;
mod memberships;
mod trigger_rows;

pub use crate::criteria_table::criteria;
pub use crate::memberships::{all_placed, members, placed_members};
pub use crate::trigger_rows::rows;
use cells::{number, priority};

// A trigger row's numbers, as they stand in the image.
#[derive(Clone, Copy)]
pub struct Row {
    pub negated: usize,
    pub kind: usize,
    pub first: usize,
    pub second: usize,
    pub set: usize,
}

// A membership's numbers, which rise by row and then group.
#[derive(Clone, Copy, PartialEq, Eq, PartialOrd, Ord)]
pub struct Member {
    pub row: usize,
    pub group: usize,
}

// A criterion's form, first row and row count.
#[derive(Clone, Copy)]
pub struct Trigger {
    pub form: usize,
    pub first: usize,
    pub count: usize,
}

// A criterion's numbers.
#[derive(Clone, Copy)]
pub struct Criterion {
    pub priority: usize,
    pub part: usize,
    pub trigger: Trigger,
    pub server: usize,
    pub handling: usize,
    pub info: usize,
}

// ---- the parts of an accepted image, by value

pub fn read_row(s: &[u8], at: usize) -> Row
    requires { (at + 7 ≤ length s.now) × (length s.now ≤ 32768) }
    ensures { result ≡ row_numbers s.now at }
{
    Row {
        negated: usize::from(s[at]),
        kind: usize::from(s[at + 1]),
        first: number(s, at + 2),
        second: number(s, at + 4),
        set: usize::from(s[at + 6]),
    }
}

pub fn read_member(s: &[u8], at: usize) -> Member
    requires { (at + 4 ≤ length s.now) × (length s.now ≤ 32768) }
    ensures { result ≡ member_numbers s.now at }
{
    Member {
        row: number(s, at),
        group: number(s, at + 2),
    }
}

fn read_trigger(s: &[u8], at: usize) -> Trigger
    requires { (at + 5 ≤ length s.now) × (length s.now ≤ 32768) }
    ensures { result ≡ trigger_numbers s.now at }
{
    Trigger {
        form: usize::from(s[at]),
        first: number(s, at + 1),
        count: number(s, at + 3),
    }
}

pub fn read_criterion(s: &[u8], at: usize) -> Criterion
    requires { (at + 15 ≤ length s.now) × (length s.now ≤ 32768) }
    ensures { result ≡ criterion_numbers s.now at }
{
    Criterion {
        priority: priority(s, at),
        part: usize::from(s[at + 4]),
        trigger: read_trigger(s, at + 5),
        server: number(s, at + 10),
        handling: usize::from(s[at + 12]),
        info: number(s, at + 13),
    }
}
