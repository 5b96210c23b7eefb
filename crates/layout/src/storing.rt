// One whole block stored.
ghost use Rattle.std.specs.Prelude.{◌≡◌, ℕ, ◌<◌, get_or};
ghost use Rattle.rules.specs.Ground.{store_bytes};
ghost use Rattle.layout.specs.Numbers.{sector_no, block_no};
ghost use Rattle.layout.specs.Geometry.{blocks_of, sectors_of, Backs};

use crate::{Block, Geometry, Sector};

// A store: block b of sector s becomes these bytes. (Takes the image itself: what stores under a budget is made over
// it.)
pub fn store_block(
    image: &mut [u8],
    g: Geometry,
    s: Sector,
    b: Block,
    bytes: [u8; Geometry::BLOCK_SIZE],
)
    requires backs { Backs g image.old }
    requires s_bound { sector_no s < sectors_of g }
    requires b_bound { block_no b < blocks_of g }
    ensures stored { image.new ≡ store_bytes (blocks_of g) image.old (sector_no s) (block_no b) bytes }
    ensures typed { (i : ℕ) → get_or image.new i 0 < 256 }
{
    let start = g.place(s, b).0;
    let end = start + Geometry::BLOCK_SIZE;
    image[start..end].copy_from_slice(&bytes);
}
