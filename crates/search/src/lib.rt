#![tactic(auto)]
// Searches for the newest entry of an ID, down the entries of a sector and back round the ring of sectors, and for the
// value that it tells.
pub mod value;

ghost use Rattle.std.specs.Prelude.{◌≡◌, ◌<◌, length};
ghost use Rattle.rules.specs.Meaning.{view_at};
ghost use Rattle.layout.specs.Numbers.{sector_no};
ghost use Rattle.layout.specs.Geometry.{blocks_of, sectors_of};
ghost use Rattle.layout.specs.Image.{sectors_in};
ghost use Rattle.entry.specs.Answer.{id_no};
ghost use Rattle.sector.specs.Answer.{view_in};
ghost use Rattle.image.specs.Answer.{views};
ghost use Rattle.search.specs.Search.{last_named, sought_in, newest_as};
ghost use Rattle.search.specs.Value.{found_in, found_as};

use entry::{Id, SMALL, look};
use image::entries::EntryAt;
use image::ring;
use layout::{Block, Image, Place, Sector, SectorBytes};

// The present value of an ID: the place of its first byte in the image, its length, and the CRC-32 that a value of more
// than 8 bytes has.
#[derive(Clone, Copy)]
pub struct Found {
    pub place: Place,
    pub length: usize,
    pub check: Option<u32>,
}

// The newest entry of the ID, by its number, 0 being the sector's oldest. Blocks that are known to be entries are
// searched by their IDs alone: entry n stands in block B-3-n.
fn newest_in(sector: &SectorBytes, entries: usize, id: Id) -> Option<usize>
    requires counted { entries ≡ length (view_in sector.now).entries }
    ensures { result ≡ last_named (id_no id) (view_in sector.now).entries }
{
    let first = sector.geometry.blocks() - 3;
    for n in (0..entries).rev() {
        if look::id_in(sector.block(Block::new(first - n))) == id.number() {
            return Some(n);
        }
    }
    None
}

// The same in sector s of an image, whose entries are read for it.
fn newest_at(image: &Image, s: Sector, id: Id) -> Option<usize>
    requires s_bound { sector_no s < sectors_of image.now.geometry }
    ensures { result ≡ last_named (id_no id) (view_at (views image.now) (sector_no s)).entries }
{
    let cycle = sector::cycle_at(image, s);
    let bytes = image.sector(s);
    let entries = sector::take_entries(&bytes, cycle);
    newest_in(&bytes, entries.count, id)
}

// All sectors but the one after w, from w back round the ring: at rest w is the working one, and the spare is left out.
fn newest_entry(image: &Image, w: Sector, id: Id) -> Option<(Sector, usize)>
    requires w_bound { sector_no w < sectors_of image.now.geometry }
    ensures { result ≡ newest_as (sought_in image.now (sector_no w) (id_no id)) }
{
    let mut s = w;
    for _passed in 1..image.geometry.sectors() {
        if let Some(n) = newest_at(image, s, id) {
            return Some((s, n));
        }
        s = ring::previous_sector(image.geometry, s);
    }
    None
}

// An entry as the value that it tells: a deletion tells none, nor does a done.
fn value_at(entry: &EntryAt) -> Option<Found>
    ensures { result ≡ found_in (blocks_of entry.now.image.geometry) (sectors_in entry.now.image) (sector_no entry.now.sector) entry.now.number }
{
    let g = entry.image.geometry;
    let block = entry.block();
    let length = look::length_in(block) as usize;
    if length == 0 {
        return None;
    }
    if length <= SMALL {
        let place = g.place(entry.sector, entry.at());
        return Some(Found {
            place: place.plus(look::BODY_AT),
            length,
            check: None,
        });
    }
    let offset = look::offset_in(block) as usize;
    let crc = look::crc32_in(block);
    Some(Found {
        place: g.place(entry.sector, Block::new(0)).plus(offset),
        length,
        check: Some(crc),
    })
}

// At rest: the value that the newest entry of an ID tells, if it tells one. A deletion ends the search.
pub fn find(image: &Image, w: Sector, id: Id) -> Option<Found>
    requires w_bound { sector_no w < sectors_of image.now.geometry }
    ensures { result ≡ found_as (blocks_of image.now.geometry) (sectors_in image.now) (sought_in image.now (sector_no w) (id_no id)) }
{
    let (sector, number) = newest_entry(image, w, id)?;
    value_at(&EntryAt {
        image: *image,
        sector,
        number,
    })
}
