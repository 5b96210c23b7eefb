#![tactic(auto)]
// Appends an entry to the active sector: its data blocks, the look-ahead, and last the entry itself, with which it
// shows.
ghost use Rattle.std.specs.Prelude.{◌≡◌, true, ◌++◌, ◌+◌, ◌≤◌, ◌<◌, length, take, drop, IfOk};
ghost use Rattle.rules.specs.Notation.{erased};
ghost use Rattle.rules.specs.Ground.{block_size};
ghost use Rattle.rules.specs.Look as rule;
ghost use Rattle.rules.specs.Stores as stores;
ghost use Rattle.layout.specs.Numbers.{sector_no};
ghost use Rattle.layout.specs.Geometry.{blocks_of, sectors_of};
ghost use Rattle.entry.specs.Answer.{scan_of, head_of, Small};
ghost use Rattle.image.specs.Answer.{Carries};
ghost use Rattle.budget.specs.Budget.{held, Did};
ghost use Rattle.append.specs.Append.{with_entry, entry_of, value_blocks, next_block, ahead_stores, entry_stores, Fits};

use budget::blank::put_blank_if;
use budget::blocks::is_entry;
use budget::{Cut, Kind, Writer};
use entry::{Head, NewEntry, look};
use image::active::Active;
use layout::{Block, Geometry};

// The sector after one more entry of this head.
fn with_entry(active: Active, head: Head) -> Active
    requires entries_bound { active.entries ≤ 4096 }
    requires small { Small active.scan }
    ensures { result ≡ with_entry active (head_of head) }
{
    Active {
        entries: active.entries + 1,
        scan: active.scan.after(head),
        ..active
    }
}

// Blanks the block that the next entry would take, where it would read as one.
fn look_ahead(writer: &mut Writer, active: Active) -> Result<(), Cut>
    requires sector_bound { sector_no active.sector < sectors_of writer.old.geometry }
    requires entries_bound { active.entries + 3 ≤ blocks_of writer.old.geometry }
    requires small { Small active.scan }
    ensures { Did writer.old (ahead_stores (blocks_of writer.old.geometry) active (held writer.old)) writer.new result }
{
    let s = active.sector;
    let b = Block::new(writer.geometry.blocks() - 3 - active.entries);
    let test = is_entry(&writer.image(), s, b, active.cycle, active.scan);
    put_blank_if(writer, s, b, test)
}

// Looks ahead, and then stores the entry of these bytes. What is carried of the sector then.
pub fn put_entry(
    writer: &mut Writer,
    active: Active,
    head: Head,
    bytes: [u8; Geometry::BLOCK_SIZE],
) -> Result<Active, Cut>
    requires sector_bound { sector_no active.sector < sectors_of writer.old.geometry }
    requires fits { Fits (blocks_of writer.old.geometry) active head }
    ensures did { Did writer.old (entry_stores (blocks_of writer.old.geometry) active (head_of head) bytes (held writer.old)) writer.new result }
    ensures active { IfOk result (λ next. next ≡ with_entry active (head_of head)) }
{
    let b = Block::new(writer.geometry.blocks() - 3 - active.entries);
    let next = with_entry(active, head);
    look_ahead(writer, next)?;
    writer.put(active.sector, b, Kind::from(head), bytes)?;
    Ok(next)
}

// A block of some bytes: sixteen of them from a place on, FF behind their end.
pub fn data_block(value: &[u8], from: usize) -> [u8; Geometry::BLOCK_SIZE]
    requires { from ≤ length value.now }
    ensures { result ≡ take block_size (drop from value.now ++ erased block_size) }
{
    let rest = &value[from..];
    let count = rest.len().min(Geometry::BLOCK_SIZE);
    let mut block = [entry::ERASED; Geometry::BLOCK_SIZE];
    block[..count].copy_from_slice(&rest[..count]);
    block
}

// Stores the data blocks of a value, upward from where the sector's data ends. A value of 1 to 8 bytes has none.
fn put_data(writer: &mut Writer, active: Active, value: &[u8]) -> Result<(), Cut>
    requires sector_bound { sector_no active.sector < sectors_of writer.old.geometry }
    requires room { active.scan.data_end + rule.data_blocks (length value.now) ≤ blocks_of writer.old.geometry }
    ensures { Did writer.old (stores.data_stores (sector_no active.sector) active.scan.data_end (value_blocks value.now)) writer.new result }
{
    for k in 0..look::data_blocks(value.len()) {
        let b = Block::new(active.scan.data_end as usize + k);
        let block = data_block(value, k * Geometry::BLOCK_SIZE);
        writer.put(active.sector, b, Kind::Data, block)?;
    }
    Ok(())
}

// The block of an entry, for the sector that is carried.
fn entry_bytes(active: Active, entry: &NewEntry) -> [u8; Geometry::BLOCK_SIZE]
    ensures { result ≡ stores.entry_block active.cycle active.scan.data_end (entry_of entry.now) }
{
    match entry.head {
        Head::Done => encode::done(active.cycle),
        Head::Deletion(id) => encode::deletion(active.cycle, id),
        Head::Value(id, length) if usize::from(length) <= entry::SMALL => {
            encode::small_value(active.cycle, id, entry.value)
        }
        Head::Value(id, length) => {
            let offset = active.scan.data_end as usize * Geometry::BLOCK_SIZE;
            let check = crc::crc32(entry.value);
            encode::long_value(active.cycle, id, length, offset as u32, check)
        }
    }
}

// Appends an entry: its data blocks, and then its own block.
pub fn append(writer: &mut Writer, active: Active, entry: &NewEntry) -> Result<Active, Cut>
    requires carries { Carries writer.old.geometry writer.old.image.now active }
    requires fits { rule.is_within (blocks_of writer.old.geometry) (scan_of active.scan) (head_of entry.now.head) ≡ true }
    ensures did { Did writer.old (stores.append (blocks_of writer.old.geometry) (sector_no active.sector) (entry_of entry.now) (held writer.old)) writer.new result }
    ensures active { IfOk result (λ next. next ≡ with_entry active (head_of entry.now.head)) }
{
    put_data(writer, active, entry.value)?;
    let bytes = entry_bytes(active, entry);
    put_entry(writer, active, entry.head, bytes)
}
