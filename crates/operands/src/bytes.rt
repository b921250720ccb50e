// Numbers of four bytes, the low one first.
ghost use Rattle.std.specs.Prelude.{◌≡◌, ◌+◌, ◌≤◌, length, map};
ghost use Rattle.operands.specs.Bytes.{number_in, u32_at};

// The number that stands at an offset. Not one function with `u16_at` of format: `from_le_bytes` is of each type, and of no trait.
pub fn u32_at(s: &[u8], at: usize) -> u32
    requires { at + 4 ≤ length s.now }
    ensures { result ≡ u32_at s.now at }
{
    u32::from_le_bytes([s[at], s[at + 1], s[at + 2], s[at + 3]])
}

// The number of these bytes.
pub fn number(bytes: [u8; 4]) -> u32
    ensures { result ≡ number_in bytes }
{
    u32::from_le_bytes(bytes)
}
