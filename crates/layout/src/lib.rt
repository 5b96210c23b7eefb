#![tactic(auto)]
// The ground: sizes, the three kinds of number, a lent image, and one whole block stored.
ghost use Rattle.std.specs.Prelude.{◌≡◌, ◌+◌, ◌-◌, ◌*◌, ◌^◌, ◌≤◌, ◌<◌, length, take, drop};
ghost use Rattle.rules.specs.Notation.{number_of};
ghost use Rattle.layout.specs.Numbers.{sector_no, sector_at, block_no, block_numbered, place_no};
ghost use Rattle.layout.specs.Sizes.{Sound};

mod image;
mod storing;

pub use image::{Image, SectorBytes};
pub use storing::store_block;

// "Tuple structs for block, byte place and sector number, with the only conversions as proved functions between them":
// so three types and not one over a marker, and `new` and `number`, which name the kind where an `into()` would not.
// That a number is below the count of a store stands in clauses: a type for it would carry the sizes beside each number
// that is noted or handed out. A sector and a block go side by side: what goes through a sector's blocks would take a
// pair apart at each step.

// A sector number, 0 to S-1.
#[derive(Clone, Copy, PartialEq, Eq)]
pub struct Sector(usize);

// A block number within its sector, 0 to B-1.
#[derive(Clone, Copy)]
pub struct Block(usize);

// A byte place in the image: where a block begins, or so many bytes further on.
#[derive(Clone, Copy)]
pub struct Place(usize);

impl Sector {
    pub fn new(n: usize) -> Sector
        ensures { result ≡ sector_at n }
    {
        Sector(n)
    }

    pub fn number(self) -> usize
        ensures { result ≡ sector_no self }
    {
        self.0
    }
}

impl Block {
    pub fn new(n: usize) -> Block
        ensures { result ≡ block_numbered n }
    {
        Block(n)
    }

    pub fn number(self) -> usize
        ensures { result ≡ block_no self }
    {
        self.0
    }
}

impl Place {
    pub fn number(self) -> usize
        ensures { result ≡ place_no self }
    {
        self.0
    }

    // The place so many bytes on.
    pub fn plus(self, bytes: usize) -> Place
        requires { place_no self + bytes < 2 ^ 32 }
        ensures { place_no result ≡ place_no self + bytes }
    {
        Place(self.0 + bytes)
    }
}

// The sizes of a store: a sector has `blocks` blocks, and there are `sectors` sectors.
#[derive(Clone, Copy)]
pub struct Geometry {
    blocks: usize,
    sectors: usize,
    pub ghost sound: { Sound blocks sectors },
}

impl Geometry {
    ghost use Rattle.std.specs.Prelude.{option_map};
    ghost use Rattle.rules.specs.Ground.{kept_from_values, kept_from_deletions, place_of};
    ghost use Rattle.layout.specs.Geometry.{blocks_of, sectors_of, sizes_in, sizes_of};

    // Bytes in a block.
    pub const BLOCK_SIZE: usize = 16;

    // Blocks of a sector that values may not take.
    pub const KEPT_FROM_VALUES: usize = 5;

    // Blocks of a sector that deletions may not take.
    pub const KEPT_FROM_DELETIONS: usize = 4;

    // The ID that no value has.
    pub const RESERVED_ID: u32 = 0xFFFFFFFF;

    // The legal sizes: bytes in a sector, and sectors.
    pub const MIN_SECTOR_SIZE: usize = 128;

    pub const MAX_SECTOR_SIZE: usize = 65536;

    pub const MIN_SECTORS: usize = 2;

    pub const MAX_SECTORS: usize = 64;

    // The geometry of these sizes, if they are legal: any numbers may be asked.
    pub fn new(sector_size: usize, count: usize, image_len: usize) -> Option<Geometry>
        ensures { option_map sizes_in result ≡ sizes_of sector_size count image_len }
    {
        if sector_size % Geometry::BLOCK_SIZE != 0
            || sector_size < Geometry::MIN_SECTOR_SIZE
            || sector_size > Geometry::MAX_SECTOR_SIZE
            || count < Geometry::MIN_SECTORS
            || count > Geometry::MAX_SECTORS
            || image_len != count * sector_size
        {
            return None;
        }
        Some(Geometry {
            blocks: sector_size / Geometry::BLOCK_SIZE,
            sectors: count,
        })
    }

    pub fn blocks(self) -> usize
        ensures { result ≡ blocks_of self }
    {
        self.blocks
    }

    pub fn sectors(self) -> usize
        ensures { result ≡ sectors_of self }
    {
        self.sectors
    }

    // The most that the needs of a sector's entries may be with a value among them.
    pub fn value_limit(self) -> usize
        ensures { result ≡ blocks_of self - kept_from_values }
    {
        self.blocks - Geometry::KEPT_FROM_VALUES
    }

    // The same with a deletion. (One function of what is kept back would be no plainer: each is one subtraction.)
    pub fn deletion_limit(self) -> usize
        ensures { result ≡ blocks_of self - kept_from_deletions }
    {
        self.blocks - Geometry::KEPT_FROM_DELETIONS
    }

    // Where block b of sector s begins.
    pub fn place(self, s: Sector, b: Block) -> Place
        requires s_bound { sector_no s < sectors_of self }
        requires b_bound { block_no b < blocks_of self }
        ensures { place_no result ≡ place_of (blocks_of self) (sector_no s) (block_no b) }
    {
        Place((s.0 * self.blocks + b.0) * Geometry::BLOCK_SIZE)
    }
}

// The number in the two bytes at a place of a block, little-endian. (This and le32 are one line each: `from_le_bytes`
// is each type's own, and a trait over both would be longer.)
pub fn le16(block: &[u8], at: usize) -> u16
    requires { at + 2 ≤ length block.now }
    ensures { result ≡ number_of (take 2 (drop at block.now)) }
{
    u16::from_le_bytes([block[at], block[at + 1]])
}

// The number in the four bytes at a place of a block, little-endian.
pub fn le32(block: &[u8], at: usize) -> u32
    requires { at + 4 ≤ length block.now }
    ensures { result ≡ number_of (take 4 (drop at block.now)) }
{
    u32::from_le_bytes([block[at], block[at + 1], block[at + 2], block[at + 3]])
}
