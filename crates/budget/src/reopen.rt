// Reopens a sector: its next cycle makes everything in it old, so that only blocks that would read under the new cycle
// are blanked before the lead.
ghost use Rattle.std.specs.Prelude.{◌<◌};
ghost use Rattle.rules.specs.Stores as stores;
ghost use Rattle.layout.specs.Numbers.{sector_no};
ghost use Rattle.layout.specs.Geometry.{blocks_of, sectors_of};
ghost use Rattle.budget.specs.Budget.{held, Did};
ghost use Rattle.budget.specs.Steps.{stale_blanks};

use crate::blank::put_blank_if;
use crate::blocks::is_entry;
use crate::{Cut, Kind, Writer};
use entry::{Scan, look};
use layout::{Block, Sector};

// Blanks the blocks that would read under this cycle, as close or as the first entry, both judged before the first
// store.
fn blank_stale(writer: &mut Writer, s: Sector, cycle: u8) -> Result<(), Cut>
    requires s_bound { sector_no s < sectors_of writer.old.geometry }
    ensures { Did writer.old (stale_blanks (blocks_of writer.old.geometry) (sector_no s) cycle (held writer.old)) writer.new result }
{
    let g = writer.geometry;
    let top = Block::new(g.blocks() - 2);
    let below = Block::new(g.blocks() - 3);
    let closed = look::is_close(writer.image().block(s, top), cycle);
    let begun = is_entry(&writer.image(), s, below, cycle, Scan::start());
    put_blank_if(writer, s, top, closed)?;
    put_blank_if(writer, s, below, begun)
}

pub fn reopen(writer: &mut Writer, s: Sector) -> Result<(), Cut>
    requires s_bound { sector_no s < sectors_of writer.old.geometry }
    ensures { Did writer.old (stores.reopen (blocks_of writer.old.geometry) (sector_no s) (held writer.old)) writer.new result }
{
    let g = writer.geometry;
    let next = sector::cycle_at(&writer.image(), s).wrapping_add(1);
    blank_stale(writer, s, next)?;
    let lead = Block::new(g.blocks() - 1);
    writer.put(s, lead, Kind::Lead, encode::lead(next))
}
