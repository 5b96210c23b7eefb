#![tactic(auto)]
// Makes a change, a value or a deletion, in an image at rest: in the working sector where there is room for it, else
// after the least number of turns that make room. That the change fits an empty sector stands in clauses (Changes): a
// type for it would hold the sizes beside each entry.
ghost use Rattle.std.specs.Prelude.{◌≡◌, false, ◌*◌, IfOk};
ghost use Rattle.std.proofs.Math.Option.{some};
ghost use Rattle.rules.specs.Ground.{block_size, image_of};
ghost use Rattle.rules.specs.Look as rule;
ghost use Rattle.rules.specs.Look.{need_of};
ghost use Rattle.rules.specs.Meaning.{at_rest, state_of};
ghost use Rattle.rules.specs.Stores as stores;
ghost use Rattle.rules.specs.Stores.{least_turns};
ghost use Rattle.rules.specs.Calls.{change_on};
ghost use Rattle.layout.specs.Numbers.{sector_no};
ghost use Rattle.layout.specs.Geometry.{blocks_of, sectors_of, Backs};
ghost use Rattle.entry.specs.Answer.{scan_of, head_of, limit_of};
ghost use Rattle.image.specs.Answer.{views_in};
ghost use Rattle.live.specs.Counts.{Counts};
ghost use Rattle.budget.specs.Budget.{budget_of, held, shown, Did};
ghost use Rattle.append.specs.Append.{entry_of};
ghost use Rattle.answer.specs.Answer.{Leaves};
ghost use Rattle.change.specs.Ready.{Opened, Changes};

use answer::{Outcome, Refusal};
use budget::{Cut, Writer};
use entry::NewEntry;
use image::active;
use image::active::Active;
use layout::{Geometry, Sector};
use live::counts::{Counted, EntryCounts};
use live::fit;

// Makes so many turns. The active sector moves on with each.
fn turns(
    writer: &mut Writer,
    active: Active,
    counts: EntryCounts,
    turn_count: usize,
) -> Result<Active, Cut>
    requires opened { Opened writer.old active }
    requires counts { Counts (shown writer.old) counts }
    ensures did { Did writer.old (stores.turns (blocks_of writer.old.geometry) (sectors_of writer.old.geometry) turn_count (sector_no active.sector) (held writer.old)) writer.new result }
    ensures rests { IfOk result (λ working. Opened writer.new working) }
    ensures working { IfOk result (λ working. sector_no working.sector ≡ stores.moved (sectors_of writer.old.geometry) turn_count (sector_no active.sector)) }
{
    let g = writer.geometry;
    let mut working = active;
    let mut noted = counts;
    for _turn in 0..turn_count {
        working = turn::turn(writer, &noted, working.sector)?;
        noted = noted.turned(g, working);
    }
    Ok(working)
}

// Makes so many turns, and then appends the entry, for which they made room.
fn turn_and_append(
    writer: &mut Writer,
    active: Active,
    counts: EntryCounts,
    turn_count: usize,
    entry: &NewEntry,
) -> Result<(), Cut>
    requires opened { Opened writer.old active }
    requires counts { Counts (shown writer.old) counts }
    requires changes { Changes (blocks_of writer.old.geometry) entry.now.head }
    requires room { least_turns (need_of (head_of entry.now.head)) (limit_of (blocks_of writer.old.geometry) (head_of entry.now.head)) (sector_no active.sector) (shown writer.old) ≡ some turn_count }
    ensures { Did writer.old (stores.change (blocks_of writer.old.geometry) (sectors_of writer.old.geometry) turn_count (sector_no active.sector) (entry_of entry.now) (held writer.old)) writer.new result }
{
    let working = turns(writer, active, counts, turn_count)?;
    append::append(writer, working, entry)?;
    Ok(())
}

// Makes a change for which the active sector has no room as it is. Whether turns make room is known before the first
// store.
fn make_turning(
    writer: &mut Writer,
    active: Active,
    entry: &NewEntry,
    allowance: u32,
) -> Result<Outcome, Refusal>
    requires begun { writer.old.budget ≡ budget_of allowance }
    requires opened { Opened writer.old active }
    requires changes { Changes (blocks_of writer.old.geometry) entry.now.head }
    requires full { rule.is_within (blocks_of writer.old.geometry) (scan_of active.scan) (head_of entry.now.head) ≡ false }
    ensures leaves { Leaves (blocks_of writer.old.geometry * block_size) (change_on (blocks_of writer.old.geometry) (sectors_of writer.old.geometry) (sector_no active.sector) (limit_of (blocks_of writer.old.geometry) (head_of entry.now.head)) (entry_of entry.now) (held writer.old)) allowance writer.old.image.now writer.new.image.now result }
    ensures same { writer.new.image.ghost_name ≡ writer.old.image.ghost_name }
{
    let g = writer.geometry;
    let counts = EntryCounts::of(&writer.image());
    let counted = Counted {
        image: writer.image(),
        counts: &counts,
        newest: active.sector,
    };
    let least = fit::turns_needed(&counted, entry.head.need(), entry.head.limit(g));
    let turn_count = least.ok_or(Refusal::NoRoom)?;
    let made = turn_and_append(writer, active, counts, turn_count, entry);
    Ok(Outcome::ended(allowance, writer.budget, made, turn_count as u32))
}

// Makes the change at rest, w being the working sector.
pub fn make(
    image: &mut [u8],
    g: Geometry,
    w: Sector,
    entry: &NewEntry,
    allowance: u32,
) -> Result<Outcome, Refusal>
    requires backs { Backs g image.old }
    requires rest { state_of (views_in g image.old) ≡ some (at_rest (sector_no w)) }
    requires changes { Changes (blocks_of g) entry.now.head }
    ensures { Leaves (blocks_of g * block_size) (change_on (blocks_of g) (sectors_of g) (sector_no w) (limit_of (blocks_of g) (head_of entry.now.head)) (entry_of entry.now) (image_of (blocks_of g) (sectors_of g) image.old)) allowance image.old image.new result }
{
    let mut writer = Writer::new(image, g, allowance);
    let active = active::read(&writer.image(), w);
    if active.scan.admits(g, entry.head) {
        let made = append::append(&mut writer, active, entry).map(|_| ());
        return Ok(Outcome::ended(allowance, writer.budget, made, 0));
    }
    make_turning(&mut writer, active, entry, allowance)
}
