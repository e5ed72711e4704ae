// The values of a text that is whole, one after the other.
ghost use Rattle.std.specs.Prelude.{◌≡◌, ◌≤◌, ◌<◌, length};
ghost use Rattle.compose.specs.Inner.Telling.{Passes};

use cuts::place_of;
use scan::end_tag_of;

// A value's bytes go up to `end`; behind its end tag the text goes on at another point.
#[derive(Clone, Copy)]
pub struct Value {
    pub end: usize,
    pub behind: usize,
    pub next: usize,
}

// From a point in a value, over the value and its end tag.
pub fn pass_value(s: &[u8], at: usize, q: usize) -> Value
    requires { (at ≤ length s.now) × (length s.now ≤ 65535) × (25 ≤ q) × (q < 42) }
    ensures { Passes q s.now at result }
{
    let end = place_of(s, at, b'<');
    let tag = end_tag_of(q);
    Value {
        end,
        behind: end + tag.width,
        next: tag.next,
    }
}
