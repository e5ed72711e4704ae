// How long a part of a text is that a machine takes from a given start.
#![tactic(auto)]

ghost use Rattle.std.specs.Prelude.{◌≡◌, ◌<◌, ◌≤◌, eqb, length, drop, replicate};
ghost use Rattle.octets.specs.Inner.Masks.{Below};
ghost use Rattle.machine.specs.Inner.Machine.{Closed, machine_of};
ghost use Rattle.part.specs.Inner.Part.{Added, Turned, Longest};

use machine::{Shape, step};

// Adds the bit q to the masks of these positions.
fn add_to(masks: &mut [u64; 60], positions: u64, q: usize)
    requires { (length masks.old ≡ 60) × Below 60 positions × (q < 60) }
    ensures { Added positions q masks.old masks.new }
{
    let mut left = positions;
    while left != 0 {
        let p = u64::trailing_zeros(left) as usize;
        left &= left - 1;
        masks[p] |= 1 << q;
    }
}

// Which positions may come right after each: the masks of those that may stand before each, read the other way round.
fn turn(h: Shape, before: &[u64; 60], after: &mut [u64; 60])
    requires closed { Closed h before.now }
    requires after_value { after.old ≡ replicate 60 0 }
    ensures { Turned h.size before.now after.new }
{
    for q in 0..h.size {
        add_to(after, before[q], q);
    }
}

// The length of the longest part that begins at the place `start`: a scan forward that keeps the positions that may meet the next byte, and
// the last place where a part may end. 0 where none begins there.
pub fn longest(
    h: Shape,
    sets: &[[u64; 4]; 60],
    before: &[u64; 60],
    text: &[u8],
    start: usize,
) -> usize
    requires { Closed h before.now × (start ≤ length text.now) }
    ensures { Longest (machine_of h sets.now before.now) (eqb start 0) (drop start text.now) result }
{
    let n = text.len();
    let mut after = [0u64; 60];
    turn(h, before, &mut after);
    let mut best: usize = 0;
    let mut candidates = h.first_of(start == 0);
    for i in start..n {
        if candidates == 0 {
            return best;
        }
        let f = step(sets, &after, candidates, text[i]);
        candidates = f.next;
        if h.last_of(i + 1 == n) & f.live != 0 {
            best = i + 1 - start;
        }
    }
    best
}
