// Brings a store to rest: what a cut left of a turn is made, the copies afresh.
ghost use Rattle.std.specs.Prelude.{◌<◌, ◌≡◌};
ghost use Rattle.rules.specs.Meaning.{state_of};
ghost use Rattle.rules.specs.Stores as stores;
ghost use Rattle.rules.specs.Stores.{◌and_then◌};
ghost use Rattle.layout.specs.Numbers.{sector_no};
ghost use Rattle.layout.specs.Geometry.{blocks_of, sectors_of};
ghost use Rattle.image.specs.Answer.{status_as};
ghost use Rattle.budget.specs.Budget.{held, shown, Did};
ghost use Rattle.turn.specs.Turn.{mount_stores};

use budget::{Cut, Writer, reopen};
use image::{Status, active, ring};
use layout::Sector;
use live::counts::EntryCounts;

// Mid-turn: sector u, which is unfinished, is reopened, and the turn made from its first copy on.
fn mount_turn(writer: &mut Writer, u: Sector) -> Result<(), Cut>
    requires u_bound { sector_no u < sectors_of writer.old.geometry }
    ensures { Did writer.old ((stores.reopen (blocks_of writer.old.geometry) (sector_no u) and_then stores.finish_turn (blocks_of writer.old.geometry) (sectors_of writer.old.geometry) (sector_no u)) (held writer.old)) writer.new result }
{
    reopen::reopen(writer, u)?;
    let counts = EntryCounts::of(&writer.image());
    let empty = active::unused(&writer.image(), u);
    crate::finish_turn(writer, &counts, empty)?;
    Ok(())
}

// The mount of an image in this state. Where it is no store, or at rest, nothing is due.
pub fn mount(writer: &mut Writer, status: Option<Status>) -> Result<(), Cut>
    requires surveyed { status ≡ status_as (state_of (shown writer.old)) }
    ensures { Did writer.old (mount_stores (blocks_of writer.old.geometry) (sectors_of writer.old.geometry) (state_of (shown writer.old)) (held writer.old)) writer.new result }
{
    match status {
        None | Some(Status::Rest(_)) => Ok(()),
        Some(Status::NotReopened(w)) => reopen::reopen(
            writer,
            ring::next_sector(writer.geometry, w),
        ),
        Some(Status::MidTurn(u)) => mount_turn(writer, u),
    }
}
