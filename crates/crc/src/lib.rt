#![tactic(auto)]
// Both checksums of an entry, at one table lookup a byte.
pub mod tables;

ghost use Rattle.std.specs.Prelude.{◌≡◌, ℕ, ◌<◌};
ghost use Rattle.std.specs.Int.Bits.{bit_xor};
ghost use Rattle.rules.specs.Notation.{times};
ghost use Rattle.rules.specs.Checksum.{crc, step8, step32, crc8 as crc8_of, crc32 as crc32_of};

use tables::{CRC8, CRC32};

// The register of a CRC: a byte moves it on by the eight steps of its bits.
trait Register: Copy {
    // the register as a number, and its step for a bit
    ghost value: { Self → ℕ };

    ghost step: { ℕ → ℕ };

    fn after(self, byte: u8) -> Self
        ensures { value result ≡ times 8 step (bit_xor (value self) byte) };
}

// "polynomial 07, not reflected"
impl Register for u8 {
    ghost value = { λ c. c };

    ghost step = { step8 };

    fn after(self, byte: u8) -> u8 {
        CRC8[(self ^ byte) as usize]
    }
}

// Only the low byte of the register meets the table; the rest moves down by a byte.
impl Register for u32 {
    ghost value = { λ c. c };

    ghost step = { step32 };

    fn after(self, byte: u8) -> u32 {
        let low = (self ^ (byte as u32)) % 256;
        CRC32[low as usize] ^ (self / 256)
    }
}

fn update<R: Register>(start: R, bytes: &[u8]) -> R
    ensures { R.value result ≡ crc R.step (R.value start) bytes.now }
{
    let mut register = start;
    for byte in bytes {
        register = register.after(*byte);
    }
    register
}

// "polynomial 07, start 0, not reflected, no final xor"
#[tactic(auto, unfolding(rules::specs::Checksum::crc8))]
pub fn crc8(bytes: &[u8]) -> u8
    ensures { result ≡ crc8_of bytes.now }
{
    update(0u8, bytes)
}

// "the common IEEE one"
#[tactic(auto, unfolding(rules::specs::Checksum::crc32))]
pub fn crc32(bytes: &[u8]) -> u32
    ensures { result ≡ crc32_of bytes.now }
{
    update(0xFFFFFFFFu32, bytes) ^ 0xFFFFFFFF
}
