#![tactic(auto)]
// The write side: stores under a budget, one whole block at a time, and the steps made of them.
pub mod blank;
pub mod blocks;
pub mod close;
pub mod reopen;

ghost use Rattle.std.specs.Prelude.{◌≡◌, ℕ, ◌<◌, get_or};
ghost use Rattle.layout.specs.Geometry.{Backs};

use entry::Head;
use layout::{Block, Geometry, Image, Sector};
use std::fmt;

// The kinds of a store.
#[derive(Clone, Copy, Debug, PartialEq, Eq)]
pub enum Kind {
    Lead,
    Close,
    Done,
    Value,
    Deletion,
    Data,
    Blank,
}

impl fmt::Display for Kind {
    fn fmt<W: fmt::Write>(&self, f: &mut fmt::Formatter<W>) -> fmt::Result {
        f.write_str(match self {
            Kind::Lead => "lead",
            Kind::Close => "close",
            Kind::Done => "done",
            Kind::Value => "value",
            Kind::Deletion => "deletion",
            Kind::Data => "data",
            Kind::Blank => "blank",
        })
    }
}

// The kind of a store that is an entry of this head.
impl From<Head> for Kind {
    ghost use Rattle.rules.specs.Stores as stores;
    ghost use Rattle.entry.specs.Answer.{head_of};
    ghost use Rattle.budget.specs.Budget.{kind_of};

    ghost from_gives = { λ head kind. kind_of kind ≡ stores.kind_of (head_of head) };

    #[tactic(auto, unfolding(rules::specs::Stores::kind_of))]
    fn from(head: Head) -> Kind {
        match head {
            Head::Done => Kind::Done,
            Head::Deletion(_) => Kind::Deletion,
            Head::Value(_, _) => Kind::Value,
        }
    }
}

// What is told of a store: the driver's trace goes by it.
#[derive(Clone, Copy)]
pub struct Store {
    pub sector: Sector,
    pub block: Block,
    pub kind: Kind,
}

impl fmt::Display for Store {
    fn fmt<W: fmt::Write>(&self, f: &mut fmt::Formatter<W>) -> fmt::Result {
        write!(
            f,
            "{} {} {}",
            self.sector.number(),
            self.block.number(),
            self.kind
        )
    }
}

// What is left of the allowance, and the last store made.
#[derive(Clone, Copy)]
pub struct Budget {
    pub left: u32,
    pub last: Option<Store>,
}

// The allowance was below the stores due: it was used up, and the rest was not made.
#[derive(Clone, Copy, Debug)]
pub struct Cut;

impl Budget {
    ghost use Rattle.budget.specs.Budget.{budget_of};

    // The budget before the first store.
    pub fn new(allowance: u32) -> Budget
        ensures { result ≡ budget_of allowance }
    {
        Budget {
            left: allowance,
            last: None,
        }
    }
}

// An image that is stored to under an allowance.
#[derive(Drop)]
pub struct Writer<'a> {
    pub image: &'a mut [u8],
    pub geometry: Geometry,
    pub budget: Budget,
    pub ghost backs: { Backs geometry image.now },
    // What the type says of each byte: a proof reads of what a field refers to only what stands here.
    pub ghost typed: { (i : ℕ) → get_or image.now i 0 < 256 },
}

impl<'a> Writer<'a> {
    ghost use Rattle.std.specs.Prelude.{[], ◌∷◌};
    ghost use Rattle.layout.specs.Numbers.{sector_no, block_no};
    ghost use Rattle.layout.specs.Geometry.{blocks_of, sectors_of};
    ghost use Rattle.budget.specs.Budget.{store_of, budget_of, Did};

    // Begins to store to an image under this allowance. (Here and where one is begun, a clause says that the image
    // backs the geometry: a Writer handed in would have to come with clauses that it is fresh, and over which image it
    // is.)
    pub fn new(image: &'a mut [u8], geometry: Geometry, allowance: u32) -> Writer<'a>
        requires backs { Backs geometry image.old }
        ensures image { result.image.now ≡ image.old }
        ensures geometry { result.geometry ≡ geometry }
        ensures budget { result.budget ≡ budget_of allowance }
        ensures same { result.image.ghost_name ≡ image.entry.ghost_name }
    {
        Writer {
            image,
            geometry,
            budget: Budget::new(allowance),
        }
    }

    // The image as it is, to be read.
    pub fn image(&self) -> Image<'_>
        ensures bytes { result.bytes.now ≡ self.now.image.now }
        ensures geometry { result.geometry ≡ self.now.geometry }
    {
        Image {
            bytes: self.image,
            geometry: self.geometry,
        }
    }

    // Makes one store, if the budget has one left; otherwise the image stays, and the step is cut.
    pub fn put(
        &mut self,
        s: Sector,
        b: Block,
        kind: Kind,
        bytes: [u8; Geometry::BLOCK_SIZE],
    ) -> Result<(), Cut>
        requires s_bound { sector_no s < sectors_of self.old.geometry }
        requires b_bound { block_no b < blocks_of self.old.geometry }
        ensures { Did self.old (store_of s b kind bytes ∷ []) self.new result }
    {
        if self.budget.left == 0 {
            return Err(Cut);
        }
        layout::store_block(self.image, self.geometry, s, b, bytes);
        self.budget.left -= 1;
        self.budget.last = Some(Store {
            sector: s,
            block: b,
            kind,
        });
        Ok(())
    }
}
