// The active sector: the one that entries are appended to. What is carried of it, by value, spares reading it again.
ghost use Rattle.std.specs.Prelude.{◌≡◌, [], ◌<◌};
ghost use Rattle.rules.specs.Meaning.{view_at};
ghost use Rattle.layout.specs.Numbers.{sector_no};
ghost use Rattle.layout.specs.Geometry.{sectors_of};
ghost use Rattle.image.specs.Answer.{views, active_as};

use entry::Scan;
use layout::{Image, Sector};

// Its number, its cycle, how many entries it has, and what they come to. (That the image shows this of the sector, that
// it has no entries yet, or that it is the working one at rest, stands in clauses: it is carried while the image is
// stored to, which a type could not lend.)
#[derive(Clone, Copy)]
pub struct Active {
    pub sector: Sector,
    pub cycle: u8,
    pub entries: usize,
    pub scan: Scan,
}

// Reads the entries of sector s.
pub fn read(image: &Image, s: Sector) -> Active
    requires s_bound { sector_no s < sectors_of image.now.geometry }
    ensures { result ≡ active_as (sector_no s) (view_at (views image.now) (sector_no s)) }
{
    let cycle = sector::cycle_at(image, s);
    let entries = sector::take_entries(&image.sector(s), cycle);
    Active {
        sector: s,
        cycle,
        entries: entries.count,
        scan: entries.scan,
    }
}

// Sector s, which is known to have no entries: only its cycle is read.
pub fn unused(image: &Image, s: Sector) -> Active
    requires s_bound { sector_no s < sectors_of image.now.geometry }
    requires empty { (view_at (views image.now) (sector_no s)).entries ≡ [] }
    ensures { result ≡ active_as (sector_no s) (view_at (views image.now) (sector_no s)) }
{
    Active {
        sector: s,
        cycle: sector::cycle_at(image, s),
        entries: 0,
        scan: Scan::start(),
    }
}
