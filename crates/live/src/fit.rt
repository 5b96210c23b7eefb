// Whether there is room for one more entry: the least number of turns after which it fits.
ghost use Rattle.std.specs.Prelude.{◌≡◌, ◌+◌, ◌≤◌, ◌<◌};
ghost use Rattle.rules.specs.Ground.{max_sector_size};
ghost use Rattle.rules.specs.Meaning.{view_at, needs_of};
ghost use Rattle.rules.specs.Stores.{least_turns};
ghost use Rattle.layout.specs.Numbers.{sector_no};
ghost use Rattle.layout.specs.Options.{option_as};
ghost use Rattle.image.specs.Answer.{views};

use crate::counts::Counted;
use image::ring;

// The least number of turns after which the entry fits, if it fits after one of 1 to S-1. At rest, where it does not
// fit beside what the newest sector holds. Turn t copies what is live in the t-th sector after the spare, so after t
// turns the open sector holds that. The bound on the need only keeps the sums from wrapping.
pub fn turns_needed(counted: &Counted, need: usize, limit: usize) -> Option<usize>
    requires need_bound { need ≤ max_sector_size }
    requires limit_bound { limit < needs_of (view_at (views counted.now.image) (sector_no counted.now.newest)).entries + need }
    ensures { result ≡ option_as (least_turns need limit (sector_no counted.now.newest) (views counted.now.image)) }
{
    let g = counted.image.geometry;
    let mut s = ring::next_sector(g, counted.newest);
    for t in 1..g.sectors() {
        s = ring::next_sector(g, s);
        if crate::needs(counted, s) + need <= limit {
            return Some(t);
        }
    }
    None
}
