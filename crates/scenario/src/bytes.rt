// Numbers in bytes, little-endian.
ghost use Rattle.std.specs.Prelude.{◌≡◌, ◌++◌, ◌+◌, ◌≤◌, ◌<◌, length, take, drop};
ghost use Rattle.scenario.specs.Bytes.{two, four, two_bytes, four_bytes};

#[tactic(auto, unfolding(crate::specs::Bytes::two))]
pub fn two_at(bytes: &[u8], at: usize) -> u32
    requires { at + 2 ≤ length bytes.now }
    ensures is { result ≡ two (drop at bytes.now) }
    ensures most { result < 65536 }
{
    u32::from(u16::from_le_bytes([bytes[at], bytes[at + 1]]))
}

#[tactic(auto, unfolding(crate::specs::Bytes::four, crate::specs::Bytes::two))]
pub fn four_at(bytes: &[u8], at: usize) -> u32
    requires { at + 4 ≤ length bytes.now }
    ensures { result ≡ four (drop at bytes.now) }
{
    u32::from_le_bytes([bytes[at], bytes[at + 1], bytes[at + 2], bytes[at + 3]])
}

// Two bytes of a list, from a place on; the bytes in front of it stay.
#[tactic(auto, unfolding(crate::specs::Bytes::two_bytes))]
pub fn put_two(out: &mut [u8], at: usize, x: u32)
    requires { at + 2 ≤ length out.old }
    ensures { take (at + 2) out.new ≡ take at out.old ++ two_bytes x }
{
    out[at..at + 2].copy_from_slice(&x.to_le_bytes()[..2]);
}

#[tactic(auto, unfolding(crate::specs::Bytes::four_bytes, crate::specs::Bytes::two_bytes))]
pub fn put_four(out: &mut [u8], at: usize, x: u32)
    requires { at + 4 ≤ length out.old }
    ensures { take (at + 4) out.new ≡ take at out.old ++ four_bytes x }
{
    out[at..at + 4].copy_from_slice(&x.to_le_bytes());
}

pub fn put_wide_pair(out: &mut [u8], at: usize, x: u32, y: u32)
    requires { at + 8 ≤ length out.old }
    ensures { take (at + 8) out.new ≡ take at out.old ++ (four_bytes x ++ four_bytes y) }
{
    put_four(out, at, x);
    put_four(out, at + 4, y);
}
