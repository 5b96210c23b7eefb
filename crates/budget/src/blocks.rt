// Looks at one block of the image where it lies.
ghost use Rattle.std.specs.Prelude.{◌≡◌, ◌<◌};
ghost use Rattle.rules.specs.Ground.{block_at};
ghost use Rattle.rules.specs.Look as rule;
ghost use Rattle.layout.specs.Numbers.{sector_no, block_no};
ghost use Rattle.layout.specs.Geometry.{blocks_of, sectors_of};
ghost use Rattle.layout.specs.Image.{sectors_in};
ghost use Rattle.entry.specs.Answer.{scan_of, Small};

use entry::{Scan, look};
use layout::{Block, Image, Sector};

// Would block b read as an entry of a sector of this cycle, after what was read before it?
pub fn is_entry(image: &Image, s: Sector, b: Block, cycle: u8, before: Scan) -> bool
    requires s_bound { sector_no s < sectors_of image.now.geometry }
    requires b_bound { block_no b < blocks_of image.now.geometry }
    requires small { Small before }
    ensures { result ≡ rule.is_entry (rule.look (blocks_of image.now.geometry) cycle (scan_of before) (block_at (sectors_in image.now) (sector_no s) (block_no b))) }
{
    look::block(image.block(s, b), image.geometry, cycle, before).is_ok()
}
