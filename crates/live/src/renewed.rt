// Which entries of a sector have a later one of their ID. An index finds the sector's entries by ID, and each later
// entry, of the sector itself and of the newer ones, marks the entry that it renews.
ghost use Rattle.std.specs.Prelude.{◌≡◌, List, [], ◌++◌, ◌<◌, ◌≤◌, length};
ghost use Rattle.rules.specs.Reading.{Entry};
ghost use Rattle.layout.specs.Numbers.{sector_no};
ghost use Rattle.layout.specs.Geometry.{blocks_of, sectors_of};
ghost use Rattle.mask.specs.Flags.{padded};
ghost use Rattle.mask.specs.Marks.{max_marks, marks_of};
ghost use Rattle.image.specs.Answer.{views};
ghost use Rattle.image.specs.EntriesIn.{entry_of};
ghost use Rattle.index.specs.Tables.{entries_at};
ghost use Rattle.index.specs.Index.{entries_of};
ghost use Rattle.live.specs.Counted.{ignored};
ghost use Rattle.live.specs.Live.{renewed_flags, renewed_flags_in, renewed_by};

use crate::counts::Counted;
use entry::{Id, look};
use image::entries::EntryAt;
use image::ring;
use index::Index;
use layout::Sector;
use mask::marks::Marks;

// Blocks of a small sector, and of the largest, and so the most entries of one.
const SMALL: usize = 256;

const LARGE: usize = 4096;

// The entry, of those indexed, that a later one renews. A done renews none: its ID field is the reserved one.
fn renewed_entry<const N: usize>(index: &Index<'_, N>, later: &EntryAt) -> Option<usize>
    ensures { result ≡ renewed_by (entry_of later.now).head index.now.count (entries_of index.now) }
{
    index.find(Id::new(look::id_in(later.block()))?)
}

// Indexes the entries of the index's sector, and marks those that a later one of them renews. Its loop is apart from
// that of renewed_by_sector, as the index grows in it: one for both would have to promise both, and be no plainer.
fn renewed_within<const N: usize>(index: &mut Index<'_, N>, count: usize) -> Marks
    requires empty { index.old.count ≡ 0 }
    requires counted { count ≡ length (entries_of index.old) }
    ensures image { index.new.image ≡ index.old.image }
    ensures sector { index.new.sector ≡ index.old.sector }
    ensures all { index.new.count ≡ count }
    ensures marked { marks_of result ≡ padded max_marks (renewed_flags (entries_of index.old) []) }
{
    let (image, sector) = (index.image, index.sector);
    let mut renewed = Marks::none();
    for n in 0..count {
        let later = EntryAt {
            image,
            sector,
            number: n,
        };
        if let Some(older) = renewed_entry(index, &later) {
            renewed = renewed.add(older);
        }
        index.add();
    }
    renewed
}

// The marks with those entries of the index's sector marked as well that an entry of sector t renews. Free: all of
// them, where those that are given are not the marks of some later entries.
fn renewed_by_sector<const N: usize>(
    index: &Index<'_, N>,
    t: Sector,
    entries: usize,
    older: Marks,
) -> Marks
    requires whole { index.now.count ≡ length (entries_of index.now) }
    requires t_bound { sector_no t < sectors_of index.now.image.geometry }
    requires t_counted { entries ≡ length (entries_at index.now.image t) }
    ensures { (later : List Entry) → marks_of older ≡ padded max_marks (renewed_flags (entries_of index.now) later) → marks_of result ≡ padded max_marks (renewed_flags (entries_of index.now) (later ++ entries_at index.now.image t)) }
{
    let mut renewed = older;
    for n in 0..entries {
        let later = EntryAt {
            image: index.image,
            sector: t,
            number: n,
        };
        if let Some(entry) = renewed_entry(index, &later) {
            renewed = renewed.add(entry);
        }
    }
    renewed
}

// The marks with those marked as well that an entry of a newer sector renews.
fn renewed_by_newer<const N: usize>(counted: &Counted, index: &Index<'_, N>, within: Marks) -> Marks
    requires same { index.now.image ≡ counted.now.image }
    requires whole { index.now.count ≡ length (entries_of index.now) }
    requires not_spare { sector_no index.now.sector ≡ ignored counted.now → ⊥ }
    requires within_marked { marks_of within ≡ padded max_marks (renewed_flags (entries_of index.now) []) }
    ensures { marks_of result ≡ padded max_marks (renewed_flags_in (ignored counted.now) (sector_no index.now.sector) (views index.now.image)) }
{
    let g = index.image.geometry;
    let spare = ring::next_sector(g, counted.newest);
    let mut renewed = within;
    let mut t = ring::next_sector(g, index.sector);
    // A range would be no plainer: the sectors are followed round the ring, and their numbers start over on the way.
    while t != spare {
        renewed = renewed_by_sector(index, t, counted.counts.at(t), renewed);
        t = ring::next_sector(g, t);
    }
    renewed
}

// The entries of sector s that have a later one of their ID, by an index of N places. Has a frame of its own, which only
// the call that needs it takes.
#[inline(never)]
fn marks_by<const N: usize>(counted: &Counted, s: Sector) -> Marks
    requires s_bound { sector_no s < sectors_of counted.now.image.geometry }
    requires not_spare { sector_no s ≡ ignored counted.now → ⊥ }
    requires room { blocks_of counted.now.image.geometry ≤ N }
    requires most { N ≤ max_marks }
    ensures { marks_of result ≡ padded max_marks (renewed_flags_in (ignored counted.now) (sector_no s) (views counted.now.image)) }
{
    let mut index = Index::<N>::new(&counted.image, s);
    let within = renewed_within(&mut index, counted.counts.at(s));
    renewed_by_newer(counted, &index, within)
}

// The same, by an index that takes stack by the sector's size: 1 KiB for one of up to 4 KiB, otherwise 16 KiB.
pub fn marks(counted: &Counted, s: Sector) -> Marks
    requires s_bound { sector_no s < sectors_of counted.now.image.geometry }
    requires not_spare { sector_no s ≡ ignored counted.now → ⊥ }
    ensures { marks_of result ≡ padded max_marks (renewed_flags_in (ignored counted.now) (sector_no s) (views counted.now.image)) }
{
    if counted.image.geometry.blocks() <= SMALL {
        marks_by::<SMALL>(counted, s)
    } else {
        marks_by::<LARGE>(counted, s)
    }
}
