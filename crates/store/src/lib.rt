#![tactic(auto, using(crate::proofs::Sizes::backs, crate::proofs::Sizes::rest))]
// The calls over a lent image. The image is the only state: each call works out afresh what it means. Sector size and
// count stay two parameters: C gives them like that, and README has them.
ghost use Rattle.std.specs.Prelude.{◌≡◌, length, option_map, MatchResult};
ghost use Rattle.rules.specs.Ground.{reserved_id};
ghost use Rattle.rules.specs.Calls as rule;
ghost use Rattle.entry.specs.Answer.{id_no};
ghost use Rattle.image.specs.Answer.{status_of};
ghost use Rattle.answer.specs.Answer.{reply_numbers_of, Leaves};
ghost use Rattle.store.specs.State.{open_as, begun_as};

use answer::{Outcome, Refusal, Reply};
use budget::Writer;
use entry::{Id, NewEntry};
use image::{Status, survey};
use layout::{Geometry, Image, Sector};

// Makes an empty store of whatever bytes the image holds.
pub fn format(
    image: &mut [u8],
    sector_size: usize,
    count: usize,
    allowance: u32,
) -> Result<Outcome, Refusal>
    ensures { Leaves sector_size (rule.format_due sector_size count image.old) allowance image.old image.new result }
{
    let g = Geometry::new(sector_size, count, image.len()).ok_or(Refusal::Geometry)?;
    let mut writer = Writer::new(image, g, allowance);
    let made = formatting::format(&mut writer);
    Ok(Outcome::ended(allowance, writer.budget, made, 0))
}

// "a mount gives 1 when it began mid-turn, else 0"
#[tactic(auto, unfolding(crate::specs::State::begun_as, rules::specs::Calls::mount_turns))]
fn mount_turns(status: Option<Status>) -> Result<u32, Refusal>
    ensures { result ≡ begun_as (option_map status_of status) }
{
    match status {
        Some(Status::Rest(_) | Status::NotReopened(_)) => Ok(0),
        Some(Status::MidTurn(_)) => Ok(1),
        None => Err(Refusal::NoStore),
    }
}

// Brings a store to rest: makes what a cut left of a turn.
pub fn mount(
    image: &mut [u8],
    sector_size: usize,
    count: usize,
    allowance: u32,
) -> Result<Outcome, Refusal>
    ensures { Leaves sector_size (rule.mount_due sector_size count image.old) allowance image.old image.new result }
{
    let g = Geometry::new(sector_size, count, image.len()).ok_or(Refusal::Geometry)?;
    let lent = Image {
        bytes: image,
        geometry: g,
    };
    let status = survey::survey(&lent);
    let turns = mount_turns(status)?;
    let mut writer = Writer::new(image, g, allowance);
    let made = turn::mount::mount(&mut writer, status);
    Ok(Outcome::ended(allowance, writer.budget, made, turns))
}

// Read, write and delete are answered at rest only.
fn open_sector(status: Option<Status>) -> Result<Sector, Refusal>
    ensures { result ≡ open_as (option_map status_of status) }
{
    match status.ok_or(Refusal::NoStore)? {
        Status::Rest(w) => Ok(w),
        Status::NotReopened(_) | Status::MidTurn(_) => Err(Refusal::Unfinished),
    }
}

// One ID is none that a caller may use.
fn user_id(id: u32) -> Result<Id, Refusal>
    ensures { MatchResult result (λ user. id_no user ≡ id) (λ e. (id ≡ reserved_id) × (e ≡ Refusal.Reserved)) }
{
    Id::new(id).ok_or(Refusal::Reserved)
}

// Copies the value of an ID into the first bytes of the buffer, and leaves the rest of it. A refused read leaves all of
// it.
pub fn read(image: &[u8], sector_size: usize, count: usize, id: u32, buffer: &mut [u8]) -> Reply
    ensures answer { reply_numbers_of result ≡ rule.reply_numbers (rule.read sector_size count image.now id (length buffer.old)) }
    ensures buffer { buffer.new ≡ rule.buffer_after (rule.read sector_size count image.now id (length buffer.old)) buffer.old }
    ensures image { image.exit.now ≡ image.entry.now }
{
    let g = Geometry::new(sector_size, count, image.len()).ok_or(Refusal::Geometry)?;
    let wanted = user_id(id)?;
    let lent = Image {
        bytes: image,
        geometry: g,
    };
    let w = open_sector(survey::survey(&lent))?;
    at_rest::read(&lent, w, wanted, buffer)
}

// Stores the value of an ID: the least number of turns that make room for it, and then the entry.
pub fn write(
    image: &mut [u8],
    sector_size: usize,
    count: usize,
    id: u32,
    value: &[u8],
    allowance: u32,
) -> Result<Outcome, Refusal>
    ensures outcome { Leaves sector_size (rule.write_due sector_size count image.old id value.now) allowance image.old image.new result }
    ensures value { value.exit.now ≡ value.entry.now }
{
    let g = Geometry::new(sector_size, count, image.len()).ok_or(Refusal::Geometry)?;
    let id = user_id(id)?;
    if value.is_empty() {
        return Err(Refusal::Empty);
    }
    let entry = NewEntry::value(id, value).ok_or(Refusal::TooLong)?;
    if g.value_limit() < entry.head.need() {
        return Err(Refusal::TooLong);
    }
    let lent = Image {
        bytes: image,
        geometry: g,
    };
    let w = open_sector(survey::survey(&lent))?;
    change::make(image, g, w, &entry, allowance)
}

// Stores that an ID has no value, where it has one.
pub fn delete(
    image: &mut [u8],
    sector_size: usize,
    count: usize,
    id: u32,
    allowance: u32,
) -> Result<Outcome, Refusal>
    ensures { Leaves sector_size (rule.delete_due sector_size count image.old id) allowance image.old image.new result }
{
    let g = Geometry::new(sector_size, count, image.len()).ok_or(Refusal::Geometry)?;
    let id = user_id(id)?;
    let lent = Image {
        bytes: image,
        geometry: g,
    };
    let w = open_sector(survey::survey(&lent))?;
    at_rest::delete(image, g, w, id, allowance)
}
