#![tactic(auto)]
// Says what an entry is: its types and constants, and `look`, what a block is where it lies in the image.
ghost use Rattle.std.specs.Prelude.{◌≡◌, MatchOption};
ghost use Rattle.rules.specs.Ground.{reserved_id};

use layout::Geometry;

pub mod look;
mod new_entry;

pub use new_entry::NewEntry;

// The byte of an erased block.
pub const ERASED: u8 = 255;

// The longest value that lies inside its entry.
pub const SMALL: usize = 8;

// The length in a lead.
pub const LEAD_LENGTH: u16 = 0xFFFF;

// The number in bytes 12 to 15 of a lead.
pub const LEAD_MARK: u32 = 0x00004201;

// What the entries before a block in its sector come to: their needs, their data blocks, and whether one is a done.
// (That its numbers are Small stands in clauses: in the type, no clause could write a scan of the rules as a Scan. So
// does that an entry is within the limits: a type of a scan and a head would be taken apart at each append.)
#[derive(Clone, Copy)]
pub struct Scan {
    pub needs: usize,
    pub data_end: u16,
    pub done: bool,
}

// The head of an entry. Done, a deletion of an ID, or a value of an ID with its length.
#[derive(Clone, Copy)]
pub enum Head {
    Done,
    Deletion(u32),
    Value(u32, u16),
}

// Why a block is no entry: the first reason that applies.
#[derive(Clone, Copy, Debug)]
pub enum NoEntry {
    Blank,
    OtherCycle,
    WrongCheck,
    WrongForm,
    OverLimit,
}

// The ID of a value. (`number` tells what an `into()` would not, as with a Sector.)
#[derive(Clone, Copy)]
pub struct Id {
    number: u32,
    pub ghost legal: { number ≡ reserved_id → ⊥ },
}

impl Id {
    ghost use Rattle.entry.specs.Answer.{id_no};

    // The ID of this number, if it is not the reserved one.
    pub fn new(number: u32) -> Option<Id>
        ensures { MatchOption result (number ≡ reserved_id) (λ id. id_no id ≡ number) }
    {
        if number == Geometry::RESERVED_ID {
            return None;
        }
        Some(Id { number })
    }

    pub fn number(self) -> u32
        ensures { result ≡ id_no self }
    {
        self.number
    }
}
