// The entries of a sector where they lie: entry n, 0 being the oldest, stands in block B-3-n.
ghost use Rattle.std.specs.Prelude.{◌≡◌, ◌-◌};
ghost use Rattle.layout.specs.Numbers.{block_numbered};
ghost use Rattle.layout.specs.Geometry.{blocks_of};
ghost use Rattle.image.specs.Entries.{IsEntry};

use layout::{Block, Geometry, Image, Sector};

// An entry of a sector of an image, by its number.
#[derive(Clone, Copy)]
pub struct EntryAt<'a> {
    pub image: Image<'a>,
    pub sector: Sector,
    pub number: usize,
    pub ghost here: { IsEntry image sector number },
}

impl<'a> EntryAt<'a> {
    ghost use Rattle.image.specs.EntriesIn.{block_of};

    // The number of its block.
    pub fn at(&self) -> Block
        ensures { result ≡ block_numbered (blocks_of self.now.image.geometry - 3 - self.now.number) }
    {
        Block::new(self.image.geometry.blocks() - 3 - self.number)
    }

    // Its block.
    pub fn block(&self) -> &'a [u8; Geometry::BLOCK_SIZE]
        ensures { result.now ≡ block_of self.now }
    {
        self.image.block(self.sector, self.at())
    }
}
