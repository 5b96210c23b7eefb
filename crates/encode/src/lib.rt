#![tactic(auto)]
// Builds the 16 bytes of each kind of entry. Byte 0, the CRC-8 of the rest, is set last.
ghost use Rattle.std.specs.Prelude.{◌≡◌, ◌++◌, ◌≤◌, ◌-◌, length};
ghost use Rattle.rules.specs.Notation.{erased};
ghost use Rattle.rules.specs.Entry as rule;

use entry::look::{BODY_AT, CYCLE_AT, ID_AT, LENGTH_AT};
use entry::{ERASED, LEAD_LENGTH, LEAD_MARK, SMALL};
use layout::Geometry;

// A body of two numbers.
fn numbers(a: u32, b: u32) -> [u8; SMALL]
    ensures { result ≡ rule.numbers a b }
{
    let mut body = [0; SMALL];
    body[..4].copy_from_slice(&a.to_le_bytes());
    body[4..].copy_from_slice(&b.to_le_bytes());
    body
}

// The value, then FF.
fn padded(value: &[u8]) -> [u8; SMALL]
    requires { length value.now ≤ 8 }
    ensures { result ≡ value.now ++ erased (8 - length value.now) }
{
    let mut body = [ERASED; SMALL];
    body[..value.len()].copy_from_slice(value);
    body
}

// The whole block. Its check byte is the CRC-8 of the others.
fn block(cycle: u8, length: u16, id: u32, body: [u8; SMALL]) -> [u8; Geometry::BLOCK_SIZE]
    ensures { result ≡ rule.encode cycle length id body }
{
    let mut block = [0; Geometry::BLOCK_SIZE];
    block[CYCLE_AT] = cycle;
    block[LENGTH_AT..ID_AT].copy_from_slice(&length.to_le_bytes());
    block[ID_AT..BODY_AT].copy_from_slice(&id.to_le_bytes());
    block[BODY_AT..].copy_from_slice(&body);
    block[0] = crc::crc8(&block[1..]);
    block
}

#[tactic(auto, unfolding(rules::specs::Entry::lead_block))]
pub fn lead(cycle: u8) -> [u8; Geometry::BLOCK_SIZE]
    ensures { result ≡ rule.lead_block cycle }
{
    block(
        cycle,
        LEAD_LENGTH,
        Geometry::RESERVED_ID,
        numbers(0, LEAD_MARK),
    )
}

#[tactic(auto, unfolding(rules::specs::Entry::close_block, rules::specs::Notation::erased))]
pub fn close(cycle: u8) -> [u8; Geometry::BLOCK_SIZE]
    ensures { result ≡ rule.close_block cycle }
{
    block(cycle, 0, Geometry::RESERVED_ID, [ERASED; SMALL])
}

// The same bytes as close; the place makes it a done.
#[tactic(auto, unfolding(rules::specs::Entry::done_block))]
pub fn done(cycle: u8) -> [u8; Geometry::BLOCK_SIZE]
    ensures { result ≡ rule.done_block cycle }
{
    close(cycle)
}

#[tactic(auto, unfolding(rules::specs::Entry::deletion_block, rules::specs::Notation::erased))]
pub fn deletion(cycle: u8, id: u32) -> [u8; Geometry::BLOCK_SIZE]
    ensures { result ≡ rule.deletion_block cycle id }
{
    block(cycle, 0, id, [ERASED; SMALL])
}

// A value of 1 to 8 bytes.
#[tactic(auto, unfolding(rules::specs::Entry::small_value_block))]
pub fn small_value(cycle: u8, id: u32, value: &[u8]) -> [u8; Geometry::BLOCK_SIZE]
    requires { length value.now ≤ 8 }
    ensures { result ≡ rule.small_value_block cycle id value.now }
{
    block(cycle, value.len() as u16, id, padded(value))
}

// A value of more than 8 bytes, which lie at the offset in the sector.
#[tactic(auto, unfolding(rules::specs::Entry::long_value_block))]
pub fn long_value(
    cycle: u8,
    id: u32,
    length: u16,
    offset: u32,
    crc: u32,
) -> [u8; Geometry::BLOCK_SIZE]
    ensures { result ≡ rule.long_value_block cycle id length offset crc }
{
    block(cycle, length, id, numbers(offset, crc))
}
