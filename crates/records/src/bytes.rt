// Numbers in bytes, unsigned and with the low byte first. Bytes and a place go side by side: a type for the two would be made for one read.
ghost use Rattle.std.specs.Prelude.{◌≡◌, ◌+◌, ◌≤◌, length, take, drop};
ghost use Rattle.records.specs.Bytes.{all_zero_of, bytes16, bytes32, le16, le32, part, written};

// So many bytes from a place on.
pub(crate) fn chunk<const N: usize>(bytes: &[u8], at: usize) -> [u8; N]
    requires { at + N ≤ length bytes.now }
    ensures { result ≡ take N (drop at bytes.now) }
{
    *bytes[at..].first_chunk().unwrap()
}

// The number in two bytes. Two and four bytes have a function each, here, below and in `fields`: each is one call of the library, and a trait over the two widths is longer
// than both.
pub fn read16(bytes: &[u8], at: usize) -> u16
    requires { at + 2 ≤ length bytes.now }
    ensures { result ≡ le16 bytes.now at }
{
    u16::from_le_bytes(chunk(bytes, at))
}

// The number in four bytes.
pub fn read32(bytes: &[u8], at: usize) -> u32
    requires { at + 4 ≤ length bytes.now }
    ensures { result ≡ le32 bytes.now at }
{
    u32::from_le_bytes(chunk(bytes, at))
}

// Whether the bytes from a place on, up to but not with another, are all zero. Without an early end, which would make the reader slower.
pub fn all_zero(bytes: &[u8], from: usize, to: usize) -> bool
    requires { (from ≤ to) × (to ≤ length bytes.now) }
    ensures { result ≡ all_zero_of (part from to bytes.now) }
{
    bytes[from..to].iter().fold(0, |any, byte| any | byte) == 0
}

// A number is written into two bytes.
pub fn write16(target: &mut [u8], at: usize, n: u16)
    requires { at + 2 ≤ length target.old }
    ensures { target.new ≡ written target.old at (bytes16 n) }
{
    target[at..at + 2].copy_from_slice(&n.to_le_bytes());
}

// A number is written into four bytes.
pub fn write32(target: &mut [u8], at: usize, n: u32)
    requires { at + 4 ≤ length target.old }
    ensures { target.new ≡ written target.old at (bytes32 n) }
{
    target[at..at + 4].copy_from_slice(&n.to_le_bytes());
}

// Bytes are copied to a place.
pub fn copy(target: &mut [u8], at: usize, source: &[u8])
    requires { at + length source.now ≤ length target.old }
    ensures { target.new ≡ written target.old at source.now }
{
    target[at..at + source.len()].copy_from_slice(source);
}
