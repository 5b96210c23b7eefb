// Copies the live values of one sector to the active one, oldest first. Which they are is known before the first copy,
// so that no other sector is looked at between them.
ghost use Rattle.std.specs.Prelude.{◌≡◌, [], ◌<◌, length, IfOk};
ghost use Rattle.rules.specs.Meaning.{view_at, next, live_in};
ghost use Rattle.rules.specs.Stores as stores;
ghost use Rattle.layout.specs.Numbers.{sector_no};
ghost use Rattle.layout.specs.Geometry.{blocks_of, sectors_of};
ghost use Rattle.mask.specs.Flags.{padded};
ghost use Rattle.mask.specs.Marks.{max_marks, marks_of};
ghost use Rattle.image.specs.Answer.{Carries};
ghost use Rattle.live.specs.Live.{live_flags_in};
ghost use Rattle.budget.specs.Budget.{held, shown, Did};
ghost use Rattle.turn.specs.Turn.{Gathered};

use budget::{Cut, Writer};
use image::active::Active;
use image::ring;
use mask::marks::Marks;

// Copies the marked ones of the entries of the sector after the active one, which are its live values, to the active
// one, which has no entry yet.
pub fn copy_live(
    writer: &mut Writer,
    count: usize,
    live: Marks,
    active: Active,
) -> Result<Active, Cut>
    requires carries { Carries writer.old.geometry writer.old.image.now active }
    requires counted { count ≡ length (view_at (shown writer.old) (next (sectors_of writer.old.geometry) (sector_no active.sector))).entries }
    requires live_marked { marks_of live ≡ padded max_marks (live_flags_in (sector_no active.sector) (next (sectors_of writer.old.geometry) (sector_no active.sector)) (shown writer.old)) }
    requires empty { (view_at (shown writer.old) (sector_no active.sector)).entries ≡ [] }
    ensures did { Did writer.old (stores.append_all (blocks_of writer.old.geometry) (sector_no active.sector) (live_in (sector_no active.sector) (next (sectors_of writer.old.geometry) (sector_no active.sector)) (shown writer.old)) (held writer.old)) writer.new result }
    ensures gathered { IfOk result (λ filled. Gathered (sector_no active.sector) writer.old writer.new filled) }
{
    let from = ring::next_sector(writer.geometry, active.sector);
    let mut filled = active;
    for n in 0..count {
        if live.has(n) {
            filled = copying::append_copy(writer, from, n, filled)?;
        }
    }
    Ok(filled)
}
