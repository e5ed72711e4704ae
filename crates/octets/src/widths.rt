// A number in another width: a byte, a word of two bytes and a long of four as what indexes take, and back.
ghost use Rattle.std.specs.Prelude.{◌≡◌, ◌≤◌, ◌<◌};
ghost use Rattle.octets.specs.Lists.{pick};

pub fn from_byte(b: u8) -> usize
    ensures { (result ≡ b) × (result < 256) }
{
    usize::from(b)
}

pub fn from_word(w: u16) -> usize
    ensures { result ≡ w }
{
    usize::from(w)
}

pub fn from_long(n: u32) -> usize
    ensures { result ≡ n }
{
    n as usize
}

pub fn to_byte(n: u32) -> u8
    requires { n < 256 }
    ensures { result ≡ n }
{
    n as u8
}

pub fn to_long(n: usize) -> u32
    requires { n < 4294967296 }
    ensures { result ≡ n }
{
    n as u32
}

// 1 for true, 0 for false.
pub fn one_if(b: bool) -> u32
    ensures { (result ≡ pick b 1 0) × (result ≤ 1) }
{
    u32::from(b)
}
