// Judges a profile image: accepted, or refused with a number and a place.
#![tactic(auto)]

ghost use Rattle.std.specs.Prelude.{◌≡◌, length};
ghost use Rattle.cells.specs.Inner.Answers.{field_out, Table};
ghost use Rattle.profile.specs.Inner.Places.{judge_by_places};
ghost use Rattle.profile.specs.Inner.Accepting.{Accepts};
ghost use Rattle.profile.specs.Inner.Decoded.{stored_in, string_of};
ghost use Rattle.profile.specs.Inner.Answers.{Laid, opening, judged_out};

mod accepted_image;

pub use crate::accepted_image::AcceptedImage;
use cells::{
    Fault, Refusal, StringTable, Suits, byte_at, count_at, judge_strings, must, strings, text,
};
use entries::{criteria, placed_members, rows};

// An accepted image's edition, and where its parts lie: how many strings, and the first byte and the number of the rows, memberships
// and criteria.
#[derive(Clone, Copy)]
pub struct Layout {
    pub edition: usize,
    pub strings: usize,
    pub rows: usize,
    pub row_count: usize,
    pub members: usize,
    pub member_count: usize,
    pub criteria: usize,
    pub criterion_count: usize,
}

// The size, the edition and the number of strings.
#[tactic(auto, unfolding(crate::specs::Inner::Answers::opening))]
fn open_image(s: &[u8]) -> Result<usize, Refusal>
    ensures { field_out result ≡ opening s.now }
{
    must(s.len() <= 32768, Fault::TooLong, 0)?;
    let edition = byte_at(s, 0)?;
    must(edition == 1, Fault::OutOfRange, 0)?;
    count_at(s, 1, 1024)
}

// The judgement of an image, section by section. Of an accepted one the table has the strings' offsets.
fn judge_image(s: &[u8], table: &mut [u16; 1024]) -> Result<Layout, Refusal>
    requires { length table.old ≡ 1024 }
    ensures table_after { judged_out result s.now table.new ≡ judge_by_places s.now }
    ensures laid { Laid result s.now table.old table.new }
{
    let count = open_image(s)?;
    let rows_at = strings(s, count, table)?;
    // Before the strings are judged: an image that ends here, or has too many rows, is refused without that.
    let row_count = count_at(s, rows_at, 2048)?;
    let mut suits = [Suits::default(); 1024];
    judge_strings(s, table, count, &mut suits);
    let strings = StringTable {
        image: s,
        table,
        suits: &suits,
        count,
    };
    let members_at = rows(&strings, row_count, rows_at + 2)?;
    let member_count = count_at(s, members_at, 16384)?;
    let criteria_at = placed_members(s, row_count, member_count, members_at + 2, rows_at + 2)?;
    let criterion_count = count_at(s, criteria_at, 64)?;
    let end = criteria(&strings, row_count, criterion_count, criteria_at + 2)?;
    must(end == s.len(), Fault::Trailing, end)?;
    Ok(Layout {
        edition: 1,
        strings: count,
        rows: rows_at + 2,
        row_count,
        members: members_at + 2,
        member_count,
        criteria: criteria_at + 2,
        criterion_count,
    })
}

// ---- what the crates above call

// An image is judged once a call; what later steps need of it stands in the accepted image. The lent table is cleared first: whatever it
// held, zeros stand behind the offsets of the strings.
pub fn accept<'a>(bytes: &'a [u8], table: &'a mut [u16; 1024]) -> Result<AcceptedImage<'a>, Refusal>
    ensures { Accepts bytes.now result }
{
    *table = [0u16; 1024];
    let layout = judge_image(bytes, table)?;
    Ok(AcceptedImage {
        bytes,
        table,
        layout,
    })
}

// The bytes of string i: a part of the image, no copy; none where there is no such string.
pub fn string_bytes<'a, 'b>(s: &'a [u8], table: &'b [u16; 1024], n: usize, i: usize) -> &'a [u8]
    requires { Table s.now n table.now }
    ensures { result.now ≡ (string_of (stored_in s.now n table.now) i).bytes }
{
    if n <= i {
        return &s[..0];
    }
    text(s, usize::from(table[i]))
}
