#![tactic(auto)]
// Formats an image, whatever it holds: every block gets its final bytes. Sector 0 has no lead until the last store, so
// that a format that was cut leaves no store.
ghost use Rattle.std.specs.Prelude.{◌≡◌, [], ◌∷◌, ◌-◌, ◌<◌, ◌≤◌};
ghost use Rattle.rules.specs.Stores as rule;
ghost use Rattle.layout.specs.Numbers.{sector_no, block_no};
ghost use Rattle.layout.specs.Geometry.{blocks_of, sectors_of};
ghost use Rattle.budget.specs.Budget.{kind_of, Did};
ghost use Rattle.formatting.specs.Finals.{kind_bytes};

use budget::blank::put_blank;
use budget::{Cut, Kind, Writer, blank};
use layout::{Block, Geometry, Sector};

// What block b of sector s is in the end: "done in sector 0; sectors 2 to S-1 closed; all else blank".
#[tactic(auto, unfolding(rules::specs::Stores::final_store, rules::specs::Stores::blank_store))]
fn final_kind(g: Geometry, s: Sector, b: Block) -> Kind
    ensures { kind_of result ≡ (rule.final_store (blocks_of g) (sector_no s) (block_no b)).kind }
{
    let blocks = g.blocks();
    let sector = s.number();
    let at = b.number();
    if at == blocks - 1 {
        Kind::Lead
    } else if at == blocks - 2 && sector >= 2 {
        Kind::Close
    } else if at == blocks - 3 && sector == 0 {
        Kind::Done
    } else {
        Kind::Blank
    }
}

// A lead and a close of cycle 1, "all cycles 1"; a done has the bytes of a close. They are constants: to put one together
// takes a CRC-8, and each sector has a lead and most have a close.
const LEAD: [u8; Geometry::BLOCK_SIZE] = [
    0xB7, 0x01, 0xFF, 0xFF, 0xFF, 0xFF, 0xFF, 0xFF, 0x00, 0x00, 0x00, 0x00, 0x01, 0x42, 0x00, 0x00,
];

const CLOSE: [u8; Geometry::BLOCK_SIZE] = [
    0xC4, 0x01, 0x00, 0x00, 0xFF, 0xFF, 0xFF, 0xFF, 0xFF, 0xFF, 0xFF, 0xFF, 0xFF, 0xFF, 0xFF, 0xFF,
];

// The bytes of a block of this kind in a format.
#[tactic(auto, unfolding(crate::specs::Finals::kind_bytes))]
fn final_bytes(kind: Kind) -> [u8; Geometry::BLOCK_SIZE]
    ensures { result ≡ kind_bytes (kind_of kind) }
{
    match kind {
        Kind::Lead => LEAD,
        Kind::Close | Kind::Done => CLOSE,
        _ => blank::bytes(),
    }
}

// Stores block b of sector s with its final bytes.
fn put_final(writer: &mut Writer, s: Sector, b: Block) -> Result<(), Cut>
    requires s_bound { sector_no s < sectors_of writer.old.geometry }
    requires b_bound { block_no b < blocks_of writer.old.geometry }
    ensures { Did writer.old (rule.final_store (blocks_of writer.old.geometry) (sector_no s) (block_no b) ∷ []) writer.new result }
{
    let kind = final_kind(writer.geometry, s, b);
    // Most blocks are blank: their bytes are not put together by kind, which takes three times as long.
    if let Kind::Blank = kind {
        return put_blank(writer, s, b);
    }
    writer.put(s, b, kind, final_bytes(kind))
}

// Stores so many blocks of sector s, upward from block 0.
fn put_blocks(writer: &mut Writer, s: Sector, count: usize) -> Result<(), Cut>
    requires s_bound { sector_no s < sectors_of writer.old.geometry }
    requires count_bound { count ≤ blocks_of writer.old.geometry }
    ensures { Did writer.old (rule.final_blocks (blocks_of writer.old.geometry) (sector_no s) 0 count) writer.new result }
{
    for b in 0..count {
        put_final(writer, s, Block::new(b))?;
    }
    Ok(())
}

// Stores every sector but the first.
fn put_sectors(writer: &mut Writer) -> Result<(), Cut>
    ensures { Did writer.old (rule.final_sectors (blocks_of writer.old.geometry) 1 (sectors_of writer.old.geometry - 1)) writer.new result }
{
    let g = writer.geometry;
    for s in 1..g.sectors() {
        put_blocks(writer, Sector::new(s), g.blocks())?;
    }
    Ok(())
}

pub fn format(writer: &mut Writer) -> Result<(), Cut>
    ensures { Did writer.old (rule.format (blocks_of writer.old.geometry) (sectors_of writer.old.geometry)) writer.new result }
{
    let g = writer.geometry;
    let first = Sector::new(0);
    let lead = Block::new(g.blocks() - 1);
    put_blank(writer, first, lead)?;
    let below_lead = g.blocks() - 1;
    put_blocks(writer, first, below_lead)?;
    put_sectors(writer)?;
    put_final(writer, first, lead)
}
