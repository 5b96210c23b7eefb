// Surveys the sectors for the state that they make together: their classes, and whether the spare is unused.
ghost use Rattle.std.specs.Prelude.{◌≡◌, [], ◌∷◌, ℕ, ◌<◌};
ghost use Rattle.rules.specs.Ground.{max_sectors};
ghost use Rattle.rules.specs.Meaning.{state_by, state_of};
ghost use Rattle.layout.specs.Numbers.{sector_no};
ghost use Rattle.layout.specs.Geometry.{sectors_of};
ghost use Rattle.mask.specs.Flags.{flags_of, sectors_in};
ghost use Rattle.image.specs.Answer.{status_as, views, is_working_class, is_unfinished_class, marked};

use crate::{Status, ring};
use layout::{Image, Sector};
use mask::Mask;
use sector::Class;

// The class masks: the working sectors, and the unfinished ones. All others are closed.
#[derive(Clone, Copy)]
struct Classes {
    working: Mask,
    unfinished: Mask,
}

impl Classes {
    // The masks with sector s in its class.
    fn with(self, s: Sector, class: Class) -> Classes
        requires { sector_no s < max_sectors }
        ensures working { flags_of result.working ≡ marked (is_working_class class) (sector_no s) (flags_of self.working) }
        ensures unfinished { flags_of result.unfinished ≡ marked (is_unfinished_class class) (sector_no s) (flags_of self.unfinished) }
    {
        match class {
            Class::Working => Classes {
                working: self.working.add(s),
                ..self
            },
            Class::Unfinished => Classes {
                unfinished: self.unfinished.add(s),
                ..self
            },
            Class::Closed => self,
        }
    }
}

// The state where sector w is the working one: by the unfinished ones, and by whether the spare is unused.
fn state_with(image: &Image, w: Sector, unfinished: Mask) -> Option<Status>
    requires w_bound { sector_no w < sectors_of image.now.geometry }
    ensures { result ≡ status_as (state_by (views image.now) (sector_no w ∷ []) (sectors_in unfinished)) }
{
    if unfinished.is_empty() {
        return Some(Status::NotReopened(w));
    }
    if !unfinished.is_one() {
        return None;
    }
    let spare = ring::next_sector(image.geometry, w);
    if unfinished.which() != spare {
        return None;
    }
    sector::is_unused(&image.sector(spare)).then_some(Status::Rest(w))
}

// The state by the classes: "exactly one bit, and which, decides".
fn decide(image: &Image, working: Mask, unfinished: Mask) -> Option<Status>
    requires working_inside { (w : ℕ) → sectors_in working ≡ w ∷ [] → w < sectors_of image.now.geometry }
    ensures { result ≡ status_as (state_by (views image.now) (sectors_in working) (sectors_in unfinished)) }
{
    if working.is_empty() {
        if unfinished.is_one() {
            return Some(Status::MidTurn(unfinished.which()));
        }
        return None;
    }
    if working.is_one() {
        return state_with(image, working.which(), unfinished);
    }
    None
}

// The state of an image, if it is a store. Of the entries only those are read that a class depends on.
pub fn survey(image: &Image) -> Option<Status>
    ensures { result ≡ status_as (state_of (views image.now)) }
{
    let mut classes = Classes {
        working: Mask::none(),
        unfinished: Mask::none(),
    };
    for n in 0..image.geometry.sectors() {
        let s = Sector::new(n);
        let class = sector::class_of(&image.sector(s))?;
        classes = classes.with(s, class);
    }
    decide(image, classes.working, classes.unfinished)
}
