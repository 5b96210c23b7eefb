// Blanking a block: sixteen bytes FF.
ghost use Rattle.std.specs.Prelude.{◌≡◌, [], ◌∷◌, ◌<◌};
ghost use Rattle.rules.specs.Ground.{blank_block};
ghost use Rattle.rules.specs.Stores.{blank_store, blank_if};
ghost use Rattle.layout.specs.Numbers.{sector_no, block_no};
ghost use Rattle.layout.specs.Geometry.{blocks_of, sectors_of};
ghost use Rattle.budget.specs.Budget.{Did};

use crate::{Cut, Kind, Writer};
use layout::{Block, Geometry, Sector};

// The bytes of a blank block.
pub fn bytes() -> [u8; Geometry::BLOCK_SIZE]
    ensures { result ≡ blank_block }
{
    [entry::ERASED; Geometry::BLOCK_SIZE]
}

// Blanks block b.
pub fn put_blank(writer: &mut Writer, s: Sector, b: Block) -> Result<(), Cut>
    requires s_bound { sector_no s < sectors_of writer.old.geometry }
    requires b_bound { block_no b < blocks_of writer.old.geometry }
    ensures { Did writer.old (blank_store (sector_no s) (block_no b) ∷ []) writer.new result }
{
    writer.put(s, b, Kind::Blank, bytes())
}

// The same where the test holds: the rules' `blank_if`. (With an `if` at the callers two branches meet before the
// second store of blank_stale, and its proof did not close.)
pub fn put_blank_if(writer: &mut Writer, s: Sector, b: Block, test: bool) -> Result<(), Cut>
    requires s_bound { sector_no s < sectors_of writer.old.geometry }
    requires b_bound { block_no b < blocks_of writer.old.geometry }
    ensures { Did writer.old (blank_if test (sector_no s) (block_no b)) writer.new result }
{
    if test {
        return put_blank(writer, s, b);
    }
    Ok(())
}
