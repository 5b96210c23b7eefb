// How many entries each sector has, by its number: what live values are found by.
ghost use Rattle.std.specs.Prelude.{◌≡◌, ◌<◌, ◌≤◌, length};
ghost use Rattle.rules.specs.Ground.{max_sectors};
ghost use Rattle.rules.specs.Meaning.{view_at, next};
ghost use Rattle.layout.specs.Numbers.{sector_no};
ghost use Rattle.layout.specs.Geometry.{sectors_of};
ghost use Rattle.image.specs.Answer.{views};
ghost use Rattle.live.specs.Counts.{Counts};

use image::active::Active;
use image::ring;
use layout::{Geometry, Image, Sector};

// The counts. Those behind the last sector are free. (That they are an image's stands in clauses where the image is
// stored to meanwhile: a type would lend it. So does what one sector's count is: a type would carry the image with it.)
#[derive(Clone, Copy)]
pub struct EntryCounts(pub [u16; Geometry::MAX_SECTORS]);

// An image, the entries of its sectors counted, and the sector that its newest entries are in: at rest the working one.
// The sector after that is ignored: at rest it is the spare, in mid-turn the unfinished one. (That a sector is not the
// ignored one stands in clauses, as its bound does: a type would carry all of this beside its number.)
#[derive(Clone, Copy)]
pub struct Counted<'a> {
    pub image: Image<'a>,
    pub counts: &'a EntryCounts,
    pub newest: Sector,
    pub ghost counted: { Counts (views image) counts.now },
    pub ghost inside: { sector_no newest < sectors_of image.geometry },
}

// The entries of sector s, counted.
fn count_at(image: &Image, s: Sector) -> u16
    requires s_bound { sector_no s < sectors_of image.now.geometry }
    ensures { result ≡ length (view_at (views image.now) (sector_no s)).entries }
{
    let cycle = sector::cycle_at(image, s);
    let entries = sector::take_entries(&image.sector(s), cycle);
    entries.count as u16
}

impl EntryCounts {
    ghost use Rattle.live.specs.Counts.{count_of, counts_turned};

    // Counts the entries of all sectors.
    pub fn of(image: &Image) -> EntryCounts
        ensures { Counts (views image.now) result }
    {
        let mut counts = [0u16; Geometry::MAX_SECTORS];
        for s in 0..image.geometry.sectors() {
            counts[s] = count_at(image, Sector::new(s));
        }
        EntryCounts(counts)
    }

    // How many entries sector s has.
    pub fn at(&self, s: Sector) -> usize
        requires { sector_no s < max_sectors }
        ensures { result ≡ count_of self.now (sector_no s) }
    {
        self.0[s.number()] as usize
    }

    // The counts after a turn: the sector that was turned to has its entries, the one after it none.
    pub fn turned(&self, g: Geometry, active: Active) -> EntryCounts
        requires sector_bound { sector_no active.sector < sectors_of g }
        requires entries_bound { active.entries ≤ 4096 }
        ensures { result ≡ counts_turned self.now (sector_no active.sector) (next (sectors_of g) (sector_no active.sector)) active.entries }
    {
        let here = active.sector.number();
        let after = ring::next_sector(g, active.sector).number();
        let mut all = self.0;
        all[here] = active.entries as u16;
        all[after] = 0;
        EntryCounts(all)
    }
}
