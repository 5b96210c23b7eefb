#![tactic(auto)]
// The live values of a sector: which of its entries they are, and what they need.
pub mod counts;
pub mod fit;
mod renewed;

ghost use Rattle.std.specs.Prelude.{◌≡◌, false, not, ◌&&◌, ◌-◌, ◌+◌, ◌<◌, get_or};
ghost use Rattle.rules.specs.Ground.{block_at};
ghost use Rattle.rules.specs.Entry.{length_of};
ghost use Rattle.rules.specs.Look.{data_blocks};
ghost use Rattle.rules.specs.Meaning.{is_value, needs_of, live_in};
ghost use Rattle.layout.specs.Numbers.{sector_no};
ghost use Rattle.layout.specs.Geometry.{blocks_of, sectors_of};
ghost use Rattle.mask.specs.Flags.{padded};
ghost use Rattle.mask.specs.Marks.{max_marks, marks_of};
ghost use Rattle.image.specs.Answer.{views};
ghost use Rattle.image.specs.EntriesIn.{block_of, entry_of};
ghost use Rattle.live.specs.Counted.{ignored};
ghost use Rattle.live.specs.Live.{live_flags_in};

use counts::Counted;
use entry::look;
use image::entries::EntryAt;
use layout::{Geometry, Sector};
use mask::marks::Marks;

// What an entry that is a value needs: its own block, and its data blocks.
fn value_need(entry: &EntryAt) -> usize
    ensures { result ≡ 1 + data_blocks (length_of (block_of entry.now)) }
{
    1 + look::data_blocks(look::length_in(entry.block()) as usize)
}

// Is the entry a value, and not one of those of its sector that have a later one of their ID?
fn is_live(entry: &EntryAt, renewed: Marks) -> bool
    ensures { result ≡ (is_value (entry_of entry.now).head && not (get_or (marks_of renewed) entry.now.number false)) }
{
    let block = entry.block();
    if look::id_in(block) == Geometry::RESERVED_ID {
        return false;
    }
    if look::length_in(block) == 0 {
        return false;
    }
    !renewed.has(entry.number)
}

// The entries of sector s that are live values.
pub fn marks(counted: &Counted, s: Sector) -> Marks
    requires s_bound { sector_no s < sectors_of counted.now.image.geometry }
    requires not_spare { sector_no s ≡ ignored counted.now → ⊥ }
    ensures { marks_of result ≡ padded max_marks (live_flags_in (ignored counted.now) (sector_no s) (views counted.now.image)) }
{
    let renewed = renewed::marks(counted, s);
    let mut live = Marks::none();
    for n in 0..counted.counts.at(s) {
        let entry = EntryAt {
            image: counted.image,
            sector: s,
            number: n,
        };
        if is_live(&entry, renewed) {
            live = live.add(n);
        }
    }
    live
}

// What the live values of sector s need together.
pub fn needs(counted: &Counted, s: Sector) -> usize
    requires s_bound { sector_no s < sectors_of counted.now.image.geometry }
    requires not_spare { sector_no s ≡ ignored counted.now → ⊥ }
    ensures { result ≡ needs_of (live_in (ignored counted.now) (sector_no s) (views counted.now.image)) }
{
    let live = marks(counted, s);
    let mut sum = 0;
    for n in 0..counted.counts.at(s) {
        if live.has(n) {
            sum += value_need(&EntryAt {
                image: counted.image,
                sector: s,
                number: n,
            });
        }
    }
    sum
}
