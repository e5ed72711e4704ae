// A pattern that was made ready for many texts.
ghost use Rattle.std.specs.Prelude.{◌≡◌};
ghost use Rattle.basic.specs.Inner.Judged.{is_pattern};
ghost use Rattle.pattern.specs.Inner.Answers.{meets_text, first_fit};
ghost use Rattle.pattern.specs.Inner.Prepared.{Ready};

use crate::{first_match, is_loaded, load, test};
use machine::Shape;

// Its bytes, whether it is for names, and what `load` made of them, with the sets and masks beside.
#[derive(Clone, Copy)]
pub struct Prepared<'a> {
    pub bytes: &'a [u8],
    pub for_names: bool,
    pub shape: Shape,
    pub sets: &'a [[u64; 4]; 60],
    pub before: &'a [u64; 60],
    pub ghost ready: { ∥ Ready for_names bytes.now shape sets.now before.now ∥₁ },
}

impl<'a> Prepared<'a> {
    // Whether it matches a text.
    pub fn meets(&self, text: &[u8]) -> bool
        ensures { result ≡ meets_text self.now.for_names self.now.bytes.now text.now }
    {
        test(self.shape, self.sets, self.before, text)
    }

    // Whether its bytes are a pattern at all: others match nothing.
    pub fn is_pattern(&self) -> bool
        ensures { result ≡ is_pattern self.now.bytes.now }
    {
        is_loaded(self.shape)
    }

    // The smallest place at which a part of the text that fits begins, or one above the text's length.
    pub fn first_match(&self, text: &[u8]) -> usize
        ensures { result ≡ first_fit self.now.for_names self.now.bytes.now text.now }
    {
        first_match(self.shape, self.sets, self.before, text)
    }
}

// Places for the sets and masks of one pattern after the other.
#[derive(Drop)]
pub struct PatternPlaces {
    pub sets: [[u64; 4]; 60],
    pub before: [u64; 60],
}

impl PatternPlaces {
    ghost use Rattle.pattern.specs.Inner.Places.{cleared};

    pub fn cleared() -> Self
        ensures { result ≡ cleared }
    {
        PatternPlaces {
            sets: [[0; 4]; 60],
            before: [0; 60],
        }
    }

    // Makes a pattern ready here. What stood here before means nothing, nor what stands here where the bytes are no pattern.
    pub fn prepare<'a>(&'a mut self, bytes: &'a [u8], for_names: bool) -> Prepared<'a>
        ensures { (result.bytes.now ≡ bytes.now) × (result.for_names ≡ for_names) }
    {
        let shape = load(bytes, for_names, &mut self.sets, &mut self.before);
        Prepared {
            bytes,
            for_names,
            shape,
            sets: &self.sets,
            before: &self.before,
        }
    }
}
