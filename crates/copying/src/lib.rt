#![tactic(auto)]
// Copies a value to another sector, with its data blocks and CRC-32 as they lie.
ghost use Rattle.std.specs.Prelude.{◌≡◌, true, [], ◌+◌, ◌≤◌, ◌<◌, length, get_or, take, drop, IfOk};
ghost use Rattle.rules.specs.Look as rule;
ghost use Rattle.rules.specs.Meaning.{view_at, is_value};
ghost use Rattle.rules.specs.Stores as stores;
ghost use Rattle.layout.specs.Numbers.{sector_no};
ghost use Rattle.layout.specs.Geometry.{blocks_of, sectors_of};
ghost use Rattle.entry.specs.Answer.{scan_of};
ghost use Rattle.image.specs.Answer.{Carries};
ghost use Rattle.budget.specs.Budget.{held, shown, Did};
ghost use Rattle.append.specs.Append.{with_entry};
ghost use Rattle.copying.specs.Copy.{entry_in, source_as, copy_of};

use budget::{Cut, Kind, Writer};
use entry::{Head, look};
use image::active::Active;
use layout::{Block, Geometry, Sector};

// A value where it lies: its ID and length, and the block at which its data begins. (0 where it has none: then no block
// is copied. An Option would have to be taken apart for that.)
#[derive(Clone, Copy)]
struct Source {
    id: u32,
    length: u16,
    first: usize,
}

// What the block of a value's entry tells of it.
fn source_of(block: &[u8; Geometry::BLOCK_SIZE]) -> Source
    ensures { result ≡ source_as block.now }
{
    let length = look::length_in(block);
    let first = if usize::from(length) <= entry::SMALL {
        0
    } else {
        look::offset_in(block) as usize / Geometry::BLOCK_SIZE
    };
    Source {
        id: look::id_in(block),
        length,
        first,
    }
}

// The block of a value's entry for another place.
fn copied(
    block: &[u8; Geometry::BLOCK_SIZE],
    cycle: u8,
    data_end: u16,
) -> [u8; Geometry::BLOCK_SIZE]
    ensures { result ≡ copy_of cycle data_end block.now }
{
    let id = look::id_in(block);
    let length = look::length_in(block);
    let small = usize::from(length);
    if small <= entry::SMALL {
        let end = look::BODY_AT + small;
        return encode::small_value(cycle, id, &block[look::BODY_AT..end]);
    }
    let offset = data_end as usize * Geometry::BLOCK_SIZE;
    let check = look::crc32_in(block);
    encode::long_value(cycle, id, length, offset as u32, check)
}

// Copies the data blocks of a value in sector `from` as they lie, upward from where the active sector's data ends. The
// loop of append::put_data is the same over a lent value; one for both would take a closure that is handed the changing
// image and that owes, at each block, that the stores so far left its sector alone: no plainer.
fn copy_data(writer: &mut Writer, from: Sector, source: Source, active: Active) -> Result<(), Cut>
    requires from_bound { sector_no «from» < sectors_of writer.old.geometry }
    requires sector_bound { sector_no active.sector < sectors_of writer.old.geometry }
    requires apart { sector_no «from» ≡ sector_no active.sector → ⊥ }
    requires source_inside { source.first + rule.data_blocks source.length ≤ blocks_of writer.old.geometry }
    requires target_inside { active.scan.data_end + rule.data_blocks source.length ≤ blocks_of writer.old.geometry }
    ensures { Did writer.old (stores.data_stores (sector_no active.sector) active.scan.data_end (take (rule.data_blocks source.length) (drop source.first (get_or (held writer.old) (sector_no «from») [])))) writer.new result }
{
    for k in 0..look::data_blocks(usize::from(source.length)) {
        let block = *writer.image().block(from, Block::new(source.first + k));
        let b = Block::new(active.scan.data_end as usize + k);
        writer.put(active.sector, b, Kind::Data, block)?;
    }
    Ok(())
}

// Appends entry n of sector `from`, a value, to the active sector.
pub fn append_copy(
    writer: &mut Writer,
    from: Sector,
    n: usize,
    active: Active,
) -> Result<Active, Cut>
    requires from_bound { sector_no «from» < sectors_of writer.old.geometry }
    requires apart { sector_no «from» ≡ sector_no active.sector → ⊥ }
    requires n_in_bounds { n < length (view_at (shown writer.old) (sector_no «from»)).entries }
    requires valued { is_value (entry_in (shown writer.old) (sector_no «from») n).head ≡ true }
    requires carries { Carries writer.old.geometry writer.old.image.now active }
    requires fits { rule.is_within (blocks_of writer.old.geometry) (scan_of active.scan) (entry_in (shown writer.old) (sector_no «from») n).head ≡ true }
    ensures did { Did writer.old (stores.append (blocks_of writer.old.geometry) (sector_no active.sector) (entry_in (shown writer.old) (sector_no «from») n) (held writer.old)) writer.new result }
    ensures active { IfOk result (λ next. next ≡ with_entry active (entry_in (shown writer.old) (sector_no «from») n).head) }
{
    let at = Block::new(writer.geometry.blocks() - 3 - n);
    let image = writer.image();
    let block = image.block(from, at);
    let source = source_of(block);
    let bytes = copied(block, active.cycle, active.scan.data_end);
    copy_data(writer, from, source, active)?;
    let head = Head::Value(source.id, source.length);
    append::put_entry(writer, active, head, bytes)
}
