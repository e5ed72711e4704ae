// The table of strings: equal strings once.
ghost use Rattle.std.specs.Prelude.{◌≡◌, ◌+◌, ◌≤◌, ◌<◌, length};
ghost use Rattle.compose.specs.Inner.Storing.{StoredAt, Strings, Adds};
ghost use Rattle.cells.specs.Inner.Places.{texts};
ghost use Rattle.cells.specs.Inner.Answers.{Table};
ghost use Rattle.compose.specs.Inner.Values.{decoded};
ghost use Rattle.compose.specs.Composing.{index_of};

use crate::values::{put_text, same_text, text_length};

// The number of a string among the n that are stored in an image, or n where it is not among them. The string is given by the bytes
// between its tags.
pub fn find_text(t: &[u8], image: &[u8], table: &[u16; 1024], n: usize) -> usize
    requires { Table image.now n table.now }
    ensures { result ≡ index_of (decoded t.now) (texts image.now n table.now) }
{
    for k in 0..n {
        if same_text(t, profile::string_bytes(image, table, n, k)) {
            return k;
        }
    }
    n
}

// Stores a string behind its length; what stands behind it.
pub fn store_text(t: &[u8], image: &mut [u8], at: usize) -> usize
    requires { (at + 2 + length (decoded t.now) ≤ length image.old) × (length (decoded t.now) < 65536) }
    ensures { (result ≡ at + 2 + length (decoded t.now)) × StoredAt (decoded t.now) at image.old image.new }
{
    let [high, low] = (text_length(t) as u16).to_be_bytes();
    image[at] = high;
    image[at + 1] = low;
    put_text(t, image, at + 2)
}

// "Equal strings are stored once": a string is stored behind the others, unless it is among them; what stands behind it, if it was stored.
pub fn add_text(
    t: &[u8],
    image: &mut [u8],
    table: &mut [u16; 1024],
    n: usize,
    at: usize,
) -> Option<usize>
    requires { Strings image.old table.old n at × (n < 1024) × (at < 65536) × (at + 2 + length (decoded t.now) ≤ length image.old) × (length (decoded t.now) < 65536) }
    ensures { Adds (decoded t.now) image.old table.old n at image.new table.new result }
{
    let k = find_text(t, image, table, n);
    if k < n {
        return None;
    }
    let e = store_text(t, image, at);
    table[n] = at as u16;
    Some(e)
}
