// Closes a sector: it takes no more entries.
ghost use Rattle.std.specs.Prelude.{◌<◌};
ghost use Rattle.rules.specs.Stores.{close_sector};
ghost use Rattle.layout.specs.Numbers.{sector_no};
ghost use Rattle.layout.specs.Geometry.{blocks_of, sectors_of};
ghost use Rattle.budget.specs.Budget.{held, Did};

use crate::{Cut, Kind, Writer};
use layout::{Block, Sector};

pub fn close(writer: &mut Writer, s: Sector) -> Result<(), Cut>
    requires s_bound { sector_no s < sectors_of writer.old.geometry }
    ensures { Did writer.old (close_sector (blocks_of writer.old.geometry) (sector_no s) (held writer.old)) writer.new result }
{
    let cycle = sector::cycle_at(&writer.image(), s);
    let at = Block::new(writer.geometry.blocks() - 2);
    writer.put(s, at, Kind::Close, encode::close(cycle))
}
