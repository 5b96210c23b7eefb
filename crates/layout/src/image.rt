// An image that is lent to be read: its sectors, and their blocks.
ghost use Rattle.std.specs.Prelude.{◌≡◌, ◌*◌, ◌<◌, [], length, get_or};
ghost use Rattle.rules.specs.Ground.{block_size, block_at};
ghost use Rattle.layout.specs.Numbers.{sector_no, block_no};
ghost use Rattle.layout.specs.Geometry.{blocks_of, sectors_of, Backs};

use crate::{Block, Geometry, Sector};

// An image of these sizes, lent to be read.
#[derive(Clone, Copy)]
pub struct Image<'a> {
    pub bytes: &'a [u8],
    pub geometry: Geometry,
    pub ghost backs: { Backs geometry bytes.now },
}

impl<'a> Image<'a> {
    ghost use Rattle.layout.specs.Image.{sectors_in, blocks_in};

    // The part that is sector s.
    pub fn sector(&self, s: Sector) -> SectorBytes<'a>
        requires { sector_no s < sectors_of self.now.geometry }
        ensures geometry { result.geometry ≡ self.now.geometry }
        ensures blocks { blocks_in result ≡ get_or (sectors_in self.now) (sector_no s) [] }
    {
        let geometry = self.geometry;
        let start = geometry.place(s, Block(0)).0;
        let end = start + geometry.blocks * Geometry::BLOCK_SIZE;
        SectorBytes {
            bytes: &self.bytes[start..end],
            geometry,
        }
    }

    // Block b of sector s.
    pub fn block(&self, s: Sector, b: Block) -> &'a [u8; Geometry::BLOCK_SIZE]
        requires s_bound { sector_no s < sectors_of self.now.geometry }
        requires b_bound { block_no b < blocks_of self.now.geometry }
        ensures { result.now ≡ block_at (sectors_in self.now) (sector_no s) (block_no b) }
    {
        self.sector(s).block(b)
    }
}

// The bytes of one sector, lent to be read.
#[derive(Clone, Copy)]
pub struct SectorBytes<'a> {
    pub bytes: &'a [u8],
    pub geometry: Geometry,
    pub ghost whole: { length bytes.now ≡ blocks_of geometry * block_size },
}

impl<'a> SectorBytes<'a> {
    ghost use Rattle.layout.specs.Image.{blocks_in};

    // Its block b.
    pub fn block(&self, b: Block) -> &'a [u8; Geometry::BLOCK_SIZE]
        requires { block_no b < blocks_of self.now.geometry }
        ensures { result.now ≡ get_or (blocks_in self.now) (block_no b) [] }
    {
        let start = b.0 * Geometry::BLOCK_SIZE;
        let end = start + Geometry::BLOCK_SIZE;
        self.bytes[start..end].try_into().unwrap()
    }
}
