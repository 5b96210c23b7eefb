#![tactic(auto)]
// Finds the entries of one sector by ID. The entries fall into buckets by their IDs; one table has the newest entry of
// each bucket, another for each entry the next older one of its bucket.
ghost use Rattle.std.specs.Prelude.{◌≡◌, ◌<◌, ◌≤◌};
ghost use Rattle.layout.specs.Numbers.{sector_no};
ghost use Rattle.layout.specs.Geometry.{sectors_of};
ghost use Rattle.mask.specs.Marks.{max_marks};
ghost use Rattle.index.specs.Buckets.{bucket_of, link_to};
ghost use Rattle.index.specs.Tables.{entries_at, Indexes};

use entry::{Id, look};
use image::entries::EntryAt;
use layout::{Image, Sector};

// The index of the first `count` entries of a sector of an image, which has at most N. There is no heap for a map, so its
// tables are fixed, N places each; they are lent once it is made. (That it has all entries stands in clauses: it grows,
// one by one.)
#[derive(Drop)]
pub struct Index<'a, const N: usize> {
    pub image: Image<'a>,
    pub sector: Sector,
    count: usize,
    heads: [u16; N],
    links: [u16; N],
    pub ghost inside: { sector_no sector < sectors_of image.geometry },
    pub ghost indexes: { Indexes N (entries_at image sector) count heads links },
}

// The bucket of an ID, of N, by Fibonacci hashing: the top bits of the low 32 of its product with 2^32 over the golden
// ratio, so that IDs in a row spread, and IDs that differ in their top bits alone do too.
fn bucket<const N: usize>(id: u32) -> usize
    requires some { 0 < N }
    requires most { N ≤ max_marks }
    ensures bucket { result ≡ bucket_of N id }
    ensures low { result < N }
{
    (id as u64 * 2654435769 / (4294967296 / N as u64)) as usize % N
}

// The entry that a link leads to: 0 leads to none, n + 1 to entry n. A table of Option<u16> would take twice the stack.
fn linked(link: u16) -> Option<usize>
    ensures { link_to result ≡ link }
{
    (link as usize).checked_sub(1)
}

impl<'a, const N: usize> Index<'a, N> {
    ghost use Rattle.std.specs.Prelude.{◌+◌, length};
    ghost use Rattle.entry.specs.Answer.{id_no};
    ghost use Rattle.search.specs.Search.{last_named_below};
    ghost use Rattle.index.specs.Index.{entries_of};

    // None of sector s's entries.
    pub fn new(image: &Image<'a>, s: Sector) -> Index<'a, N>
        requires s_bound { sector_no s < sectors_of image.now.geometry }
        requires some { 0 < N }
        requires most { N ≤ max_marks }
        requires fits { length (entries_at image.now s) ≤ N }
        ensures image { result.image ≡ image.now }
        ensures sector { result.sector ≡ s }
        ensures empty { result.count ≡ 0 }
    {
        Index {
            image: *image,
            sector: s,
            count: 0,
            heads: [0u16; N],
            links: [0u16; N],
        }
    }

    // The newest of its entries that names the ID.
    pub fn find(&self, id: Id) -> Option<usize>
        ensures { result ≡ last_named_below (id_no id) self.now.count (entries_of self.now) }
    {
        let mut link = linked(self.heads[bucket::<N>(id.number())]);
        while let Some(number) = link {
            let entry = EntryAt {
                image: self.image,
                sector: self.sector,
                number,
            };
            if look::id_in(entry.block()) == id.number() {
                return Some(number);
            }
            link = linked(self.links[number]);
        }
        None
    }

    // Takes in the next entry of its sector.
    pub fn add(&mut self)
        requires more { self.old.count < length (entries_of self.old) }
        ensures image { self.new.image ≡ self.old.image }
        ensures sector { self.new.sector ≡ self.old.sector }
        ensures counted { self.new.count ≡ self.old.count + 1 }
    {
        let number = self.count;
        let entry = EntryAt {
            image: self.image,
            sector: self.sector,
            number,
        };
        let at = bucket::<N>(look::id_in(entry.block()));
        self.links[number] = self.heads[at];
        self.count = number + 1;
        self.heads[at] = self.count as u16;
    }
}
