// Numbers of two bytes, the low one first.
ghost use Rattle.std.specs.Prelude.{◌≡◌, ◌+◌, ◌≤◌, length};
ghost use Rattle.format.specs.Heads.{u16_at};

// The number that stands at an offset. Not one function with `u32_at` of operands: `from_le_bytes` is of each type, and of no trait.
pub fn u16_at(s: &[u8], at: usize) -> u16
    requires { at + 2 ≤ length s.now }
    ensures { result ≡ u16_at s.now at }
{
    u16::from_le_bytes([s[at], s[at + 1]])
}
