// The end tag of a value: the last word of its point.
ghost use Rattle.std.specs.Prelude.{◌≡◌, ◌≤◌, ◌<◌};
ghost use Rattle.scan.specs.Inner.Tags.{tag_of};

use crate::points::{first_of, next_of, width_of};

// How long it is, and the point behind it.
#[derive(Clone, Copy)]
pub struct Tag {
    pub width: usize,
    pub next: usize,
}

pub fn end_tag_of(q: usize) -> Tag
    requires { (25 ≤ q) × (q < 42) }
    ensures { (result ≡ tag_of q) × (result.width ≤ 1103) × (result.next < 42) }
{
    let end = first_of(q + 1);
    let j = end - 1;
    Tag {
        width: width_of(j),
        next: next_of(j),
    }
}
