#![tactic(auto)]
// Reads one sector where it lies: its cycle, its class, and what its entries come to.
ghost use Rattle.std.specs.Prelude.{◌≡◌, [], ◌<◌, ◌&&◌, get_or, if◌then◌else◌};
ghost use Rattle.rules.specs.Notation.{is_empty};
ghost use Rattle.rules.specs.Reading.{entries_of, view_of};
ghost use Rattle.layout.specs.Numbers.{sector_no};
ghost use Rattle.layout.specs.Geometry.{blocks_of, sectors_of};
ghost use Rattle.layout.specs.Image.{sectors_in, blocks_in};
ghost use Rattle.sector.specs.Answer.{view_in, entries_as, has_done_among, class_as};

use entry::{NoEntry, Scan, look};
use layout::{Block, Image, Sector, SectorBytes};

// The entries of a sector: how many there are, from block B-3 downward, what they come to, and why the block below them
// is none, which ended the reading.
#[derive(Clone, Copy)]
pub struct Entries {
    pub count: usize,
    pub scan: Scan,
    pub ended: NoEntry,
}

// "A sector is closed (close present), working (not closed, done present) or unfinished (neither)."
#[derive(Clone, Copy)]
pub enum Class {
    Closed,
    Working,
    Unfinished,
}

// The cycle of sector s: that of its lead, right or wrong.
pub fn cycle_at(image: &Image, s: Sector) -> u8
    requires { sector_no s < sectors_of image.now.geometry }
    ensures { result ≡ (view_of (blocks_of image.now.geometry) (get_or (sectors_in image.now) (sector_no s) [])).cycle }
{
    cycle_in(&image.sector(s))
}

// The same of a sector's bytes.
fn cycle_in(sector: &SectorBytes) -> u8
    ensures { result ≡ (view_in sector.now).cycle }
{
    look::cycle_in(sector.block(Block::new(sector.geometry.blocks() - 1)))
}

// "entries are taken from block B-3 downward and the reading ends at the first block that isn't an entry". Where it
// is to go only as far as to a done, a sector that has one is not read further, and gives nothing. (A closure in place
// of the flag would be no plainer: the clause would have to say what it answers of each scan.)
fn read(sector: &SectorBytes, cycle: u8, to_done: bool) -> Option<Entries>
    ensures { let B = blocks_of sector.now.geometry in result ≡ (if to_done && has_done_among (entries_of B cycle (blocks_in sector.now)) then None else Some (entries_as B cycle (blocks_in sector.now))) }
{
    let g = sector.geometry;
    let first = g.blocks() - 3;
    let mut scan = Scan::start();
    for count in 0..=first {
        let block = sector.block(Block::new(first - count));
        match look::block(block, g, cycle, scan) {
            Ok((_, next)) if to_done && next.done => return None,
            Ok((_, next)) => scan = next,
            Err(ended) => return Some(Entries { count, scan, ended }),
        }
    }
    // Entries and their data never take up all blocks.
    unreachable!()
}

// All of them.
pub fn take_entries(sector: &SectorBytes, cycle: u8) -> Entries
    ensures { result ≡ entries_as (blocks_of sector.now.geometry) cycle (blocks_in sector.now) }
{
    read(sector, cycle, false).unwrap()
}

// Is one of the entries a done?
fn has_done(sector: &SectorBytes, cycle: u8) -> bool
    ensures { result ≡ has_done_among (entries_of (blocks_of sector.now.geometry) cycle (blocks_in sector.now)) }
{
    read(sector, cycle, true).is_none()
}

// Has it no entries? Its first entry block says so.
pub fn is_unused(sector: &SectorBytes) -> bool
    ensures { result ≡ is_empty (view_in sector.now).entries }
{
    let g = sector.geometry;
    let first = sector.block(Block::new(g.blocks() - 3));
    look::block(first, g, cycle_in(sector), Scan::start()).is_err()
}

// Its class, if it has a right lead. The entries of a closed sector decide nothing, so they are not read.
pub fn class_of(sector: &SectorBytes) -> Option<Class>
    ensures { result ≡ class_as (view_in sector.now) }
{
    let blocks = sector.geometry.blocks();
    // Is no `?`: the must-fail edit lead_not_needed answers a class here, and keeps the shape.
    let Some(cycle) = look::lead(sector.block(Block::new(blocks - 1))) else {
        return None;
    };
    if look::is_close(sector.block(Block::new(blocks - 2)), cycle) {
        return Some(Class::Closed);
    }
    if has_done(sector, cycle) {
        return Some(Class::Working);
    }
    Some(Class::Unfinished)
}
