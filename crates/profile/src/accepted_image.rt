// An accepted image, as the crates above are lent it.
ghost use Rattle.std.specs.Prelude.{◌≡◌, ◌+◌, ◌*◌, ◌<◌};
ghost use Rattle.std.proofs.Props.{props};
ghost use Rattle.entries.specs.Inner.Places.{row_numbers, criterion_numbers};
ghost use Rattle.profile.specs.Inner.Decoded.{strings, string_of};
ghost use Rattle.profile.specs.Inner.Kept.{Standing};

use crate::{Layout, string_bytes};
use entries::{Criterion, Row, read_criterion, read_row};

// Its bytes, where its strings stand, and where its sections lie, as `accept` found them.
#[derive(Clone, Copy)]
pub struct AcceptedImage<'a> {
    pub bytes: &'a [u8],
    pub table: &'a [u16; 1024],
    pub layout: Layout,
    pub ghost standing: { Standing bytes.now table.now layout } by { Prim.hlevel props },
}

impl<'a> AcceptedImage<'a> {
    // The bytes of string i: a part of the image, no copy; none where there is no such string.
    pub fn string(&self, i: usize) -> &'a [u8]
        ensures { result.now ≡ (string_of (strings self.now.bytes.now) i).bytes }
    {
        string_bytes(self.bytes, self.table, self.layout.strings, i)
    }

    pub fn row(&self, i: usize) -> Row
        requires { i < self.now.layout.row_count }
        ensures { result ≡ row_numbers self.now.bytes.now (self.now.layout.rows + 7 * i) }
    {
        read_row(self.bytes, self.layout.rows + 7 * i)
    }

    pub fn criterion(&self, i: usize) -> Criterion
        requires { i < self.now.layout.criterion_count }
        ensures { result ≡ criterion_numbers self.now.bytes.now (self.now.layout.criteria + 15 * i) }
    {
        read_criterion(self.bytes, self.layout.criteria + 15 * i)
    }
}
