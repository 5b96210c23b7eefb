#![tactic(auto)]
// What an image means: the state that its sectors make together, and what is carried of the one that is written.
pub mod active;
pub mod entries;
pub mod ring;
pub mod survey;

use layout::Sector;

// The state of a store, with the sector that decides it: the working one; in mid-turn the unfinished one.
#[derive(Clone, Copy)]
pub enum Status {
    Rest(Sector),
    NotReopened(Sector),
    MidTurn(Sector),
}
