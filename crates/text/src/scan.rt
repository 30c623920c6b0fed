// Where a byte stands.
ghost use Rattle.std.specs.Prelude.{◌≡◌, ◌==◌, ◌+◌, ◌-◌, ◌<◌, ◌≤◌, IfSome, drop, length, option_map, position, take};

// The place of the first such byte, if there is one.
fn place(bytes: &[u8], byte: u8) -> Option<usize>
    ensures value { result ≡ position (λ x. x == byte) bytes.now }
    ensures bound { IfSome result (λ k. k < length bytes.now) }
{
    bytes.iter().position(|b| *b == byte)
}

// The place of the first such byte from `from` on and before `to`, if there is one.
pub fn find(bytes: &[u8], from: usize, to: usize, byte: u8) -> Option<usize>
    requires { (from ≤ to) × (to ≤ length bytes.now) }
    ensures value { result ≡ option_map (λ k. from + k) (position (λ x. x == byte) (take (to - from) (drop from bytes.now))) }
    ensures bound { IfSome result (λ i. (from ≤ i) × (i < to)) }
{
    place(&bytes[from..to], byte).map(|k| from + k)
}
