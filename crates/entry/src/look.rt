// Says what a block is, where it lies: a lead, a close, an entry, or why it is no entry.
ghost use Rattle.std.specs.Prelude.{◌≡◌, ◌≤◌, option_map};
ghost use Rattle.rules.specs.Notation as notation;
ghost use Rattle.rules.specs.Entry as fields;
ghost use Rattle.rules.specs.Look as rule;
ghost use Rattle.layout.specs.Geometry.{blocks_of};
ghost use Rattle.layout.specs.Options.{option_as};
ghost use Rattle.entry.specs.Answer.{scan_of, scan_as, head_of, head_as, limit_of, Small, verdict_as};

use crate::{ERASED, Head, LEAD_LENGTH, LEAD_MARK, NoEntry, SMALL, Scan};
use layout::Geometry;

// Where the fields of a block begin: cycle, length, ID, body, and the second number of a body.
pub const CYCLE_AT: usize = 1;

pub const LENGTH_AT: usize = 2;

pub const ID_AT: usize = 4;

pub const BODY_AT: usize = 8;

pub const SECOND_AT: usize = 12;

// The cycle in a block. That of a lead is its sector's.
#[tactic(auto, unfolding(rules::specs::Entry::cycle_of))]
pub fn cycle_in(block: &[u8; Geometry::BLOCK_SIZE]) -> u8
    ensures { result ≡ fields.cycle_of block.now }
{
    block[CYCLE_AT]
}

// The ID in an entry's block.
#[tactic(auto, unfolding(rules::specs::Entry::id_of))]
pub fn id_in(block: &[u8; Geometry::BLOCK_SIZE]) -> u32
    ensures { result ≡ fields.id_of block.now }
{
    layout::le32(block, ID_AT)
}

// The length of its value.
#[tactic(auto, unfolding(rules::specs::Entry::length_of))]
pub fn length_in(block: &[u8; Geometry::BLOCK_SIZE]) -> u16
    ensures { result ≡ fields.length_of block.now }
{
    layout::le16(block, LENGTH_AT)
}

// The offset of the data of a long value.
#[tactic(auto, unfolding(rules::specs::Entry::offset_of))]
pub fn offset_in(block: &[u8; Geometry::BLOCK_SIZE]) -> u32
    ensures { result ≡ fields.offset_of block.now }
{
    layout::le32(block, BODY_AT)
}

// The CRC-32 of a long value.
#[tactic(auto, unfolding(rules::specs::Entry::crc32_of))]
pub fn crc32_in(block: &[u8; Geometry::BLOCK_SIZE]) -> u32
    ensures { result ≡ fields.crc32_of block.now }
{
    layout::le32(block, SECOND_AT)
}

// Are these bytes all FF?
fn is_erased(bytes: &[u8]) -> bool
    ensures { result ≡ notation.is_erased bytes.now }
{
    bytes.iter().all(|byte| *byte == ERASED)
}

// Is byte 0 the CRC-8 of the rest?
fn is_checked(block: &[u8; Geometry::BLOCK_SIZE]) -> bool
    ensures { result ≡ rule.is_checked block.now }
{
    block[0] == crc::crc8(&block[1..])
}

// The data blocks of a value of this length.
pub fn data_blocks(length: usize) -> usize
    ensures { result ≡ rule.data_blocks length }
{
    if length <= SMALL {
        0
    } else {
        length.div_ceil(Geometry::BLOCK_SIZE)
    }
}

impl Head {
    // The blocks that an entry takes of its sector's room: none for a done.
    pub fn need(self) -> usize
        ensures { result ≡ rule.need_of (head_of self) }
    {
        match self {
            Head::Done => 0,
            Head::Deletion(_) => 1,
            Head::Value(_, length) => 1 + data_blocks(length as usize),
        }
    }

    // The most that the needs of a sector may be with a value, or with a deletion, among them.
    #[tactic(auto, unfolding(crate::specs::Answer::limit_of))]
    pub fn limit(self, g: Geometry) -> usize
        ensures { result ≡ limit_of (blocks_of g) (head_of self) }
    {
        match self {
            Head::Value(_, _) => g.value_limit(),
            Head::Deletion(_) | Head::Done => g.deletion_limit(),
        }
    }
}

impl Scan {
    // Before the first entry of a sector.
    #[tactic(auto, unfolding(rules::specs::Look::start))]
    pub fn start() -> Scan
        ensures { result ≡ scan_as rule.start }
    {
        Scan {
            needs: 0,
            data_end: 0,
            done: false,
        }
    }

    // After one more entry.
    pub fn after(self, head: Head) -> Scan
        requires { Small self }
        ensures { result ≡ scan_as (rule.after (scan_of self) (head_of head)) }
    {
        match head {
            Head::Done => Scan { done: true, ..self },
            Head::Deletion(_) => Scan {
                needs: self.needs + 1,
                ..self
            },
            Head::Value(_, length) => {
                let data = data_blocks(length as usize);
                Scan {
                    needs: self.needs + (1 + data),
                    data_end: self.data_end + data as u16,
                    ..self
                }
            }
        }
    }

    // Does the entry still count in its sector?
    pub fn admits(self, g: Geometry, head: Head) -> bool
        requires { Small self }
        ensures { result ≡ rule.is_within (blocks_of g) (scan_of self) (head_of head) }
    {
        match head {
            Head::Done => !self.done,
            Head::Deletion(_) => self.needs + 1 <= g.deletion_limit(),
            Head::Value(_, length) => self.needs + (1 + data_blocks(length as usize))
                <= g.value_limit(),
        }
    }
}

// The kind of an entry by its fields, the cycle and byte 0 being right.
fn head_of(block: &[u8; Geometry::BLOCK_SIZE], data_end: u16) -> Option<Head>
    ensures { result ≡ option_map head_as (option_as (rule.head_of data_end block.now)) }
{
    let id = id_in(block);
    let told = length_in(block);
    let length = told as usize;
    if id == Geometry::RESERVED_ID {
        (length == 0 && is_erased(&block[BODY_AT..])).then_some(Head::Done)
    } else if length == 0 {
        is_erased(&block[BODY_AT..]).then_some(Head::Deletion(id))
    } else if length <= SMALL {
        is_erased(&block[BODY_AT + length..]).then_some(Head::Value(id, told))
    } else {
        let offset = offset_in(block) as usize;
        (offset == data_end as usize * Geometry::BLOCK_SIZE).then_some(Head::Value(id, told))
    }
}

// What a block of a sector of this cycle is, after what was read before it: an entry, with what its sector comes to
// after it, or why it is none. The cycle byte is compared before byte 0 is worked out.
pub fn block(
    block: &[u8; Geometry::BLOCK_SIZE],
    g: Geometry,
    cycle: u8,
    before: Scan,
) -> Result<(Head, Scan), NoEntry>
    requires { Small before }
    ensures { result ≡ verdict_as (scan_of before) (rule.look (blocks_of g) cycle (scan_of before) block.now) }
{
    if is_erased(block) {
        return Err(NoEntry::Blank);
    }
    if cycle_in(block) != cycle {
        return Err(NoEntry::OtherCycle);
    }
    if !is_checked(block) {
        return Err(NoEntry::WrongCheck);
    }
    let head = head_of(block, before.data_end).ok_or(NoEntry::WrongForm)?;
    if !before.admits(g, head) {
        return Err(NoEntry::OverLimit);
    }
    Ok((head, before.after(head)))
}

// The look at block B-1 of a sector: its cycle, if it is a right lead.
pub fn lead(block: &[u8; Geometry::BLOCK_SIZE]) -> Option<u8>
    ensures { result ≡ option_as (rule.lead_cycle block.now) }
{
    if !is_checked(block) {
        return None;
    }
    if id_in(block) != Geometry::RESERVED_ID {
        return None;
    }
    if length_in(block) != LEAD_LENGTH {
        return None;
    }
    if offset_in(block) != 0 {
        return None;
    }
    if crc32_in(block) != LEAD_MARK {
        return None;
    }
    Some(cycle_in(block))
}

// Is block B-2 of a sector of this cycle its close?
pub fn is_close(block: &[u8; Geometry::BLOCK_SIZE], cycle: u8) -> bool
    ensures { result ≡ rule.is_close cycle block.now }
{
    if cycle_in(block) != cycle {
        return false;
    }
    if !is_checked(block) {
        return false;
    }
    if id_in(block) != Geometry::RESERVED_ID {
        return false;
    }
    if length_in(block) != 0 {
        return false;
    }
    is_erased(&block[BODY_AT..])
}
