// Bytes and two-byte numbers of an input. Reading is total: past the end a byte is 0. Uses the ceilings of limits, in a contract alone.
#![tactic(auto)]

ghost use Rattle.std.specs.Prelude.{◌≡◌, ◌≤◌};
ghost use Rattle.limits.specs.Limits.{far_ceiling};
ghost use Rattle.input.specs.Bytes.{byte_at, two};

#[tactic(auto, unfolding(crate::specs::Bytes::byte_at))]
pub fn byte_at(s: &[u8], i: usize) -> u8
    ensures { result ≡ byte_at s.now i }
{
    s.get(i).copied().unwrap_or(0)
}

#[tactic(auto, unfolding(crate::specs::Bytes::two))]
pub fn two_at(s: &[u8], at: usize) -> u16
    requires { at ≤ far_ceiling }
    ensures { result ≡ two s.now at }
{
    u16::from_be_bytes([byte_at(s, at), byte_at(s, at + 1)])
}
