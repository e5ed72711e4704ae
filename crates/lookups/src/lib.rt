// The check of an image, and the lookups of a criterion's server and service information. The definitions stand in specs/.
#![tactic(auto)]

ghost use Rattle.std.specs.Prelude.{◌≡◌, ◌+◌, ◌≤◌, length};
ghost use Rattle.std.proofs.Math.Option.{some};
ghost use Rattle.profile.specs.Inner.Decoded.{strings, string_of};
ghost use Rattle.lookups.specs.Lookups.{no_part, the_part, part_of, server as server-of, information as information-of, Checks, Serves, Informs};
ghost use Rattle.lookups.specs.Inner.Looking.{Found};

use entries::Criterion;
use profile::AcceptedImage;

// What the check of an image answers: the refusal number (0 if none) and its place.
#[derive(Clone, Copy)]
pub struct Checked {
    pub refusal: u32,
    pub place: u32,
}

// What a lookup answers: the refusal number (0 if none) and its place, whether the part is present, and where it stands in the image.
#[derive(Clone, Copy)]
pub struct Lookup {
    pub refusal: u32,
    pub place: u32,
    pub present: bool,
    pub start: u32,
    pub size: u32,
}

pub fn check(image: &[u8]) -> Checked
    ensures { Checks image.now result }
{
    let mut table = [0u16; 1024];
    match profile::accept(image, &mut table) {
        Ok(_) => Checked {
            refusal: 0,
            place: 0,
        },
        Err(e) => Checked {
            refusal: u32::from(e.fault),
            place: e.place as u32,
        },
    }
}

fn no_part_with(refusal: u32, place: u32) -> Lookup
    ensures { result ≡ no_part refusal place }
{
    Lookup {
        refusal,
        place,
        present: false,
        start: 0,
        size: 0,
    }
}

// String i as a part of the image; the empty one where there is none.
fn stored_part(image: &AcceptedImage<'_>, i: usize) -> Lookup
    ensures { result ≡ the_part (some (string_of (strings image.now.bytes.now) i)) }
{
    if image.layout.strings <= i {
        return Lookup {
            refusal: 0,
            place: 0,
            present: true,
            start: 0,
            size: 0,
        };
    }
    let o = usize::from(image.table[i]);
    let size = cells::number(image.bytes, o);
    Lookup {
        refusal: 0,
        place: 0,
        present: true,
        start: (o + 2) as u32,
        size: size as u32,
    }
}

// The numbers of a criterion, where the image has it.
fn criterion_of(image: &AcceptedImage<'_>, criterion: u32) -> Option<Criterion>
    ensures { Found image.now.bytes.now criterion result }
{
    let i = criterion as usize;
    if image.layout.criterion_count <= i {
        return None;
    }
    Some(image.criterion(i))
}

pub fn server(image: &[u8], criterion: u32) -> Lookup
    ensures { Serves image.now criterion result }
{
    let mut table = [0u16; 1024];
    let accepted = match profile::accept(image, &mut table) {
        Ok(accepted) => accepted,
        Err(e) => return no_part_with(u32::from(e.fault), e.place as u32),
    };
    match criterion_of(&accepted, criterion) {
        Some(c) => stored_part(&accepted, c.server),
        None => no_part_with(13, 0),
    }
}

pub fn information(image: &[u8], criterion: u32) -> Lookup
    ensures { Informs image.now criterion result }
{
    let mut table = [0u16; 1024];
    let accepted = match profile::accept(image, &mut table) {
        Ok(accepted) => accepted,
        Err(e) => return no_part_with(u32::from(e.fault), e.place as u32),
    };
    match criterion_of(&accepted, criterion) {
        Some(c) if c.info == 65535 => no_part_with(0, 0),
        Some(c) => stored_part(&accepted, c.info),
        None => no_part_with(13, 0),
    }
}

// A lookup's part of the image, no copy.
fn part<'a>(image: &'a [u8], l: Lookup) -> &'a [u8]
    requires { l.start + l.size ≤ length image.now }
    ensures { result.now ≡ part_of image.now l }
{
    let a = l.start as usize;
    let e = a + l.size as usize;
    &image[a..e]
}

pub fn server_name(image: &[u8], criterion: u32) -> &[u8]
    ensures { result.now ≡ part_of image.now (server-of image.now criterion) }
{
    let l = server(image, criterion);
    part(image, l)
}

pub fn service_information(image: &[u8], criterion: u32) -> &[u8]
    ensures { result.now ≡ part_of image.now (information-of image.now criterion) }
{
    let l = information(image, criterion);
    part(image, l)
}
