// Numbers of four bytes and of two, little-endian, in a caller's bytes: read and put; the word for none; and numbers in a wider type.
#![tactic(auto)]

ghost use Rattle.std.specs.Prelude.{◌≡◌, ◌+◌, ◌≤◌, ◌<◌, length};
ghost use Rattle.wire.specs.Bytes.{u32_at, four_bytes, put_u32, u16_at, put_u16};

// The word for none in every table: -1 as 32 bits.
pub const NONE: u32 = 0xFFFF_FFFF;

// A byte as a wider number.
pub fn wide(byte: u8) -> u32
    ensures { (result ≡ byte) × (result < 256) }
{
    byte as u32
}

// A number of 32 bits as one of 64.
pub fn widened(z: i32) -> i64
    ensures { result ≡ z }
{
    z as i64
}

fn four_bytes(bytes: &[u8], at: usize) -> u32
    requires { at + 4 ≤ length bytes.now }
    ensures { result ≡ four_bytes bytes.now at }
{
    let a = wide(bytes[at]);
    let b = wide(bytes[at + 1]);
    let c = wide(bytes[at + 2]);
    let d = wide(bytes[at + 3]);
    a + 256 * (b + 256 * (c + 256 * d))
}

// The number at a place.
#[tactic(auto, unfolding(crate::specs::Bytes::u32_at))]
pub fn u32_at(bytes: &[u8], at: usize) -> u32
    requires { at + 4 ≤ length bytes.now }
    ensures { result ≡ u32_at bytes.now at }
{
    four_bytes(bytes, at)
}

// The number written at a place; every other byte stays.
#[tactic(auto, using(crate::proofs::Numbers::stores))]
pub fn put_u32(bytes: &mut [u8], at: usize, w: u32)
    requires { at + 4 ≤ length bytes.old }
    ensures { bytes.new ≡ put_u32 bytes.old at w }
{
    bytes[at] = (w % 256) as u8;
    bytes[at + 1] = (w / 256 % 256) as u8;
    bytes[at + 2] = (w / 256 / 256 % 256) as u8;
    bytes[at + 3] = (w / 256 / 256 / 256 % 256) as u8;
}

// The number of two bytes at a place.
#[tactic(auto, unfolding(crate::specs::Bytes::u16_at))]
pub fn u16_at(bytes: &[u8], at: usize) -> usize
    requires { at + 2 ≤ length bytes.now }
    ensures { (result ≡ u16_at bytes.now at) × (result < 65536) }
{
    let low = wide(bytes[at]);
    let high = wide(bytes[at + 1]);
    (low + 256 * high) as usize
}

// The two lowest bytes of a number written at a place; every other byte stays.
#[tactic(auto, using(crate::proofs::Short::two_stores))]
pub fn put_u16(bytes: &mut [u8], at: usize, n: usize)
    requires { at + 2 ≤ length bytes.old }
    ensures { bytes.new ≡ put_u16 bytes.old at n }
{
    bytes[at] = (n % 256) as u8;
    bytes[at + 1] = (n / 256 % 256) as u8;
}
