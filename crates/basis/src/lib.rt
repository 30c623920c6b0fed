// What every floor stands on: choice by a test, lists cut into parts, little-endian numbers in byte slices.
#![tactic(auto)]

ghost use Rattle.std.specs.Prelude.{◌≡◌, ◌+◌, ◌≤◌, length};
ghost use Rattle.basis.specs.Numbers.{bytes, number_at};
ghost use Rattle.basis.specs.Parts.{replaced};

// The number in the four bytes from `at` on, least first.
pub fn read_u32(b: &[u8], at: usize) -> u32
    requires { at + 4 ≤ length b.now }
    ensures { result ≡ number_at 4 at b.now }
{
    u32::from_le_bytes(b[at..at + 4].try_into().unwrap())
}

// The number in the eight bytes from `at` on, least first.
pub fn read_u64(b: &[u8], at: usize) -> u64
    requires { at + 8 ≤ length b.now }
    ensures { result ≡ number_at 8 at b.now }
{
    u64::from_le_bytes(b[at..at + 8].try_into().unwrap())
}

// Puts v into the four bytes from `at` on, least first.
pub fn write_u32(b: &mut [u8], at: usize, v: u32)
    requires { at + 4 ≤ length b.old }
    ensures { b.new ≡ replaced at (bytes 4 v) b.old }
{
    b[at..at + 4].copy_from_slice(&v.to_le_bytes());
}

// Puts v into the eight bytes from `at` on, least first.
pub fn write_u64(b: &mut [u8], at: usize, v: u64)
    requires { at + 8 ≤ length b.old }
    ensures { b.new ≡ replaced at (bytes 8 v) b.old }
{
    b[at..at + 8].copy_from_slice(&v.to_le_bytes());
}
