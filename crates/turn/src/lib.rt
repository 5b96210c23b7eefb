#![tactic(auto)]
// Turns the ring: the working sector is closed, the live values of the oldest one are copied to the spare, a done makes
// that the working one, and the oldest becomes the new spare.
pub mod copies;
pub mod mount;

ghost use Rattle.std.specs.Prelude.{◌≡◌, true, [], ◌<◌, IfOk};
ghost use Rattle.rules.specs.Look as rule;
ghost use Rattle.rules.specs.Meaning.{view_at, next};
ghost use Rattle.rules.specs.Stores as stores;
ghost use Rattle.rules.specs.Stores.{◌and_then◌};
ghost use Rattle.layout.specs.Numbers.{sector_no};
ghost use Rattle.layout.specs.Geometry.{blocks_of, sectors_of};
ghost use Rattle.entry.specs.Answer.{scan_of};
ghost use Rattle.mask.specs.Flags.{padded};
ghost use Rattle.mask.specs.Marks.{max_marks, marks_of};
ghost use Rattle.image.specs.Answer.{Carries, views};
ghost use Rattle.live.specs.Counts.{Counts};
ghost use Rattle.live.specs.Live.{live_flags_in};
ghost use Rattle.budget.specs.Budget.{held, shown, Did};
ghost use Rattle.turn.specs.Turn.{Gathered, Turned};

use budget::{Cut, Writer, close, reopen};
use entry::NewEntry;
use image::active::Active;
use image::{active, ring};
use layout::{Image, Sector};
use live::counts::{Counted, EntryCounts};
use mask::marks::Marks;

// The live values of the oldest sector, the one after sector u, that a turn goes to.
fn live_oldest<'a>(image: Image<'a>, counts: &'a EntryCounts, u: Sector) -> Marks
    requires counts { Counts (views image) counts.now }
    requires u_bound { sector_no u < sectors_of image.geometry }
    ensures { marks_of result ≡ padded max_marks (live_flags_in (sector_no u) (next (sectors_of image.entry.geometry) (sector_no u)) (views image.entry)) }
{
    let counted = Counted {
        image,
        counts,
        newest: ring::previous_sector(image.geometry, u),
    };
    live::marks(&counted, ring::next_sector(image.geometry, u))
}

// Copies the live values of the sector after the active one to that, which has no entry yet.
fn gather(writer: &mut Writer, counts: &EntryCounts, active: Active) -> Result<Active, Cut>
    requires counts { Counts (shown writer.old) counts.now }
    requires carries { Carries writer.old.geometry writer.old.image.now active }
    requires empty { (view_at (shown writer.old) (sector_no active.sector)).entries ≡ [] }
    ensures did { Did writer.old (stores.append_all (blocks_of writer.old.geometry) (sector_no active.sector) (stores.survivors (blocks_of writer.old.geometry) (sector_no active.sector) (held writer.old)) (held writer.old)) writer.new result }
    ensures gathered { IfOk result (λ filled. Gathered (sector_no active.sector) writer.old writer.new filled) }
{
    let oldest = ring::next_sector(writer.geometry, active.sector);
    let live = live_oldest(writer.image(), counts, active.sector);
    copies::copy_live(writer, counts.at(oldest), live, active)
}

// Ends a turn: the done goes into the active sector, and the sector after it is reopened.
fn end_turn(writer: &mut Writer, active: Active) -> Result<Active, Cut>
    requires carries { Carries writer.old.geometry writer.old.image.now active }
    requires done_fits { rule.is_within (blocks_of writer.old.geometry) (scan_of active.scan) rule.done ≡ true }
    ensures { Turned (sector_no active.sector) writer.old ((stores.append (blocks_of writer.old.geometry) (sector_no active.sector) stores.done_entry and_then stores.reopen (blocks_of writer.old.geometry) (next (sectors_of writer.old.geometry) (sector_no active.sector))) (held writer.old)) writer.new result }
{
    let oldest = ring::next_sector(writer.geometry, active.sector);
    let working = append::append(writer, active, &NewEntry::done())?;
    reopen::reopen(writer, oldest)?;
    Ok(working)
}

// Makes a turn from its first copy on: the active sector, which has no entry yet, is the one that is turned to.
pub fn finish_turn(writer: &mut Writer, counts: &EntryCounts, active: Active) -> Result<Active, Cut>
    requires counts { Counts (shown writer.old) counts.now }
    requires carries { Carries writer.old.geometry writer.old.image.now active }
    requires empty { (view_at (shown writer.old) (sector_no active.sector)).entries ≡ [] }
    ensures { Turned (sector_no active.sector) writer.old (stores.finish_turn (blocks_of writer.old.geometry) (sectors_of writer.old.geometry) (sector_no active.sector) (held writer.old)) writer.new result }
{
    let filled = gather(writer, counts, active)?;
    end_turn(writer, filled)
}

// Makes a turn from the working sector w, the sector after it having no entry.
pub fn turn(writer: &mut Writer, counts: &EntryCounts, w: Sector) -> Result<Active, Cut>
    requires counts { Counts (shown writer.old) counts.now }
    requires w_bound { sector_no w < sectors_of writer.old.geometry }
    requires spare_empty { (view_at (shown writer.old) (next (sectors_of writer.old.geometry) (sector_no w))).entries ≡ [] }
    ensures { Turned (next (sectors_of writer.old.geometry) (sector_no w)) writer.old (stores.turn (blocks_of writer.old.geometry) (sectors_of writer.old.geometry) (sector_no w) (held writer.old)) writer.new result }
{
    let spare = active::unused(&writer.image(), ring::next_sector(writer.geometry, w));
    close::close(writer, w)?;
    finish_turn(writer, counts, spare)
}
