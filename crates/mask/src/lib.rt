#![tactic(auto)]
// Sets by bits: class masks of sectors, and marks of a sector's entries.
pub mod marks;

ghost use Rattle.std.specs.Prelude.{◌≡◌, true, [], ◌∷◌, ◌<◌, set};
ghost use Rattle.rules.specs.Notation.{is_empty};
ghost use Rattle.rules.specs.Ground.{max_sectors};
ghost use Rattle.layout.specs.Numbers.{sector_no};
ghost use Rattle.mask.specs.Flags.{flags_of, sectors_in, is_singleton, Holds};

use layout::Sector;

// A set of sectors. That it is a word is known here alone. (Marks of one word would be no plainer: is_one
// and which count the bits of a word, and add would have to find the word first.)
#[derive(Clone, Copy)]
pub struct Mask(u64);

impl Mask {
    // The empty set.
    pub fn none() -> Mask
        ensures { Holds result [] }
    {
        Mask(0)
    }

    // The set with sector s in it as well.
    pub fn add(self, s: Sector) -> Mask
        requires { sector_no s < max_sectors }
        ensures { flags_of result ≡ set (flags_of self) (sector_no s) true }
    {
        Mask(self.0 | 1u64 << s.number())
    }

    pub fn is_empty(self) -> bool
        ensures { result ≡ is_empty (sectors_in self) }
    {
        self.0 == 0
    }

    // Is exactly one sector in it?
    pub fn is_one(self) -> bool
        ensures { result ≡ is_singleton (sectors_in self) }
    {
        self.0.count_ones() == 1
    }

    // The one sector in it.
    pub fn which(self) -> Sector
        requires { is_singleton (sectors_in self) ≡ true }
        ensures { sectors_in self ≡ sector_no result ∷ [] }
    {
        Sector::new(self.0.trailing_zeros() as usize)
    }
}
