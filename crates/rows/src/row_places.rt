// Places for a row's patterns, and the patterns read into them.
ghost use Rattle.std.specs.Prelude.{◌≡◌};
ghost use Rattle.profile.specs.Inner.Decoded.{strings};
ghost use Rattle.pattern.specs.Inner.Places.{cleared};
ghost use Rattle.rows.specs.Inner.Tried.{PatternsOf, ContentOf};

use entries::Row;
use pattern::{PatternPlaces, Prepared};
use profile::AcceptedImage;
use trials::RowPatterns;

// Those of one row after the other: what stands here between two rows means nothing.
#[derive(Drop)]
pub struct RowPlaces {
    pub name: PatternPlaces,
    pub content: PatternPlaces,
}

// A row's Content, if it has one.
fn prepare_content<'a, 'i: 'a>(
    image: &AcceptedImage<'i>,
    second: usize,
    places: &'a mut PatternPlaces,
) -> Option<Prepared<'a>>
    ensures { ContentOf (strings image.now.bytes.now) second result }
{
    if second == 65535 {
        return None;
    }
    Some(places.prepare(image.string(second), false))
}

impl RowPlaces {
    pub fn cleared() -> Self
        ensures { (result.name ≡ cleared) × (result.content ≡ cleared) }
    {
        RowPlaces {
            name: PatternPlaces::cleared(),
            content: PatternPlaces::cleared(),
        }
    }

    // Reads the patterns of a row of kind 2 or 4, once for all fields or lines: those of kind 2 (SIPHeader) are for names.
    pub fn prepare<'a, 'i: 'a>(&'a mut self, image: &AcceptedImage<'i>, row: Row) -> RowPatterns<'a>
        ensures { PatternsOf (strings image.now.bytes.now) row result }
    {
        let name = self.name.prepare(image.string(row.first), row.kind == 2);
        let content = prepare_content(image, row.second, &mut self.content);
        RowPatterns { name, content }
    }
}
