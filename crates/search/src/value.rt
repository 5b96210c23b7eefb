// The bytes of a value: whether their CRC-32 is right, and a copy of them.
ghost use Rattle.std.specs.Prelude.{◌≡◌, ◌++◌, ◌≤◌, length, drop};
ghost use Rattle.search.specs.Value as rule;

// Is the CRC-32 that goes with the bytes, if there is one, right?
pub fn passes(check: Option<u32>, bytes: &[u8]) -> bool
    ensures { result ≡ rule.passes check bytes.now }
{
    match check {
        None => true,
        Some(crc) => crc == crc::crc32(bytes),
    }
}

// Copies the bytes to the buffer's first places. By a loop, since `copy_from_slice` calls C's `memmove` where both are
// lent by C, and a C program owes `memcpy` and `memset` alone. (By place: with a zip over `iter_mut` the proof would
// have to follow each lent byte to its end.)
pub fn copy(bytes: &[u8], buffer: &mut [u8])
    requires { length bytes.now ≤ length buffer.old }
    ensures { buffer.new ≡ bytes.now ++ drop (length bytes.now) buffer.old }
{
    for (i, byte) in bytes.iter().enumerate() {
        buffer[i] = *byte;
    }
}
