// Bytes and two-byte numbers written into lent memory from an offset on; the other bytes stay. Uses input, in its proofs alone.
#![tactic(auto)]

ghost use Rattle.std.specs.Prelude.{◌≡◌, ◌+◌, ◌≤◌, length};
ghost use Rattle.output.specs.Written.{written, two_bytes};

// By a loop, of which the compiler makes memcpy. The library's `copy_from_slice` would make memmove, and the header promises that the archive needs memcpy
// and memset alone.
pub fn write_bytes(part: &mut [u8], at: usize, bytes: &[u8])
    requires { at + length bytes.now ≤ length part.old }
    ensures { part.new ≡ written part.old at bytes.now }
{
    for i in 0..bytes.len() {
        part[at + i] = bytes[i];
    }
}

// The number's last two bytes, high byte first.
pub fn write_two(part: &mut [u8], at: usize, n: usize)
    requires { at + 2 ≤ length part.old }
    ensures { part.new ≡ written part.old at (two_bytes n) }
{
    write_bytes(part, at, &((n % 65536) as u16).to_be_bytes());
}
