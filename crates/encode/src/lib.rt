// The entries of a profile image, written (document 01, "Profile image"). Each function gives what stands behind.
#![tactic(auto)]

ghost use Rattle.std.specs.Prelude.{◌≡◌, ◌+◌, ◌≤◌, ◌<◌, length};
ghost use Rattle.profile.specs.Written.{two, four, row, membership, criterion};
ghost use Rattle.encode.specs.Inner.Wrote.{Wrote};

use entries::{Criterion, Member, Row};

// "Integers are big-endian"
pub fn two(n: usize) -> [u8; 2]
    ensures { result ≡ two n }
{
    ((n % 65536) as u16).to_be_bytes()
}

fn four(n: usize) -> [u8; 4]
    ensures { result ≡ four n }
{
    ((n % 4294967296) as u32).to_be_bytes()
}

// Writes bytes at a place.
pub fn put<const N: usize>(dst: &mut [u8], to: usize, bytes: [u8; N]) -> usize
    requires { to + N ≤ length dst.old }
    ensures { (result ≡ to + N) × Wrote bytes.entry to dst.old dst.new }
{
    dst[to..to + N].copy_from_slice(&bytes);
    to + N
}

// "negated; kind; first, 2 bytes; second, 2 bytes; registration set, 1 byte"
pub fn put_row(dst: &mut [u8], to: usize, r: Row) -> usize
    requires { (to + 7 ≤ length dst.old) × (r.negated < 256) × (r.kind < 256) × (r.set < 256) }
    ensures { (result ≡ to + 7) × Wrote (row r) to dst.old dst.new }
{
    let kind = put(dst, to, [r.negated as u8]);
    let first = put(dst, kind, [r.kind as u8]);
    let second = put(dst, first, two(r.first));
    let set = put(dst, second, two(r.second));
    put(dst, set, [r.set as u8])
}

// "row (2 bytes), group (2 bytes)"
pub fn put_member(dst: &mut [u8], to: usize, m: Member) -> usize
    requires { to + 4 ≤ length dst.old }
    ensures { (result ≡ to + 4) × Wrote (membership m) to dst.old dst.new }
{
    let group = put(dst, to, two(m.row));
    put(dst, group, two(m.group))
}

// "priority (4); profile part; form; first row (2); row count (2); server string (2); default handling; service information string (2)"
pub fn put_criterion(dst: &mut [u8], to: usize, c: Criterion) -> usize
    requires { (to + 15 ≤ length dst.old) × (c.part < 256) × (c.trigger.form < 256) × (c.handling < 256) }
    ensures { (result ≡ to + 15) × Wrote (criterion c) to dst.old dst.new }
{
    let part = put(dst, to, four(c.priority));
    let form = put(dst, part, [c.part as u8]);
    let first = put(dst, form, [c.trigger.form as u8]);
    let count = put(dst, first, two(c.trigger.first));
    let server = put(dst, count, two(c.trigger.count));
    let handling = put(dst, server, two(c.server));
    let info = put(dst, handling, [c.handling as u8]);
    put(dst, info, two(c.info))
}
