// Two calls over a block of lines, so that tests and measures reach prepared patterns from C.
ghost use Rattle.std.specs.Prelude.{◌≡◌, not, ◌%◌, eqb};
ghost use Rattle.pattern.specs.Inner.Answers.{meets_text};
ghost use Rattle.probes.specs.Inner.Lines.{LinesTo, matched, matching};

use octets::{from_long, one_if};
use pattern::{PatternPlaces, Prepared};

// The lines that the prepared pattern matches.
fn count(pattern: &Prepared<'_>, block: &[u8]) -> usize
    ensures { result ≡ matched pattern.now.for_names pattern.now.bytes.now block.now }
{
    let mut n: usize = 0;
    let mut at: usize = 0;
    while at <= block.len() {
        let end = cuts::place_of(block, at, b'\n');
        let m = pattern.meets(&block[at..end]);
        n += from_long(one_if(m));
        at = end + 1;
    }
    n
}

// Whether a string is a pattern that matches the text: by where its first part begins, so that tests in C run `first_match`.
fn read_and_test(bytes: &[u8], fold: bool, text: &[u8], places: &mut PatternPlaces) -> bool
    ensures { result ≡ meets_text fold bytes.now text.now }
{
    places.prepare(bytes, fold).first_match(text) <= text.len()
}

// The lines that are patterns and match the text.
fn count_patterns(block: &[u8], fold: bool, text: &[u8], places: &mut PatternPlaces) -> usize
    ensures { result ≡ matching fold text.now block.now }
{
    let mut n: usize = 0;
    let mut at: usize = 0;
    while at <= block.len() {
        let end = cuts::place_of(block, at, b'\n');
        let m = read_and_test(&block[at..end], fold, text, places);
        n += from_long(one_if(m));
        at = end + 1;
    }
    n
}

// The pattern is read once for all lines.
pub fn pattern_lines(pattern: &[u8], fold: u32, block: &[u8], met: &mut u32) -> u32
    ensures { LinesTo pattern.now fold block.now result met.new }
{
    let mut places = PatternPlaces::cleared();
    let prepared = places.prepare(pattern, fold != 0);
    if !prepared.is_pattern() {
        *met = 0;
        return 5;
    }
    let n = count(&prepared, block);
    *met = (n % 4294967296) as u32;
    0
}

// Each line of the block is read as a pattern, all of them into the same places.
pub fn lines_as_patterns(block: &[u8], fold: u32, text: &[u8], met: &mut u32)
    ensures { met.new ≡ matching (not (eqb fold 0)) text.now block.now % 4294967296 }
{
    let mut places = PatternPlaces::cleared();
    let n = count_patterns(block, fold != 0, text, &mut places);
    *met = (n % 4294967296) as u32;
}
