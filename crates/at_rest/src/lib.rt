#![tactic(auto)]
// What read and delete do with an image at rest, whose working sector is w, once what they were given is checked.
ghost use Rattle.std.specs.Prelude.{◌≡◌, ◌*◌, ◌<◌, length};
ghost use Rattle.std.proofs.Math.Option.{some};
ghost use Rattle.rules.specs.Ground.{block_size, image_of};
ghost use Rattle.rules.specs.Meaning.{at_rest, state_of, history, lookup};
ghost use Rattle.rules.specs.Calls as rule;
ghost use Rattle.layout.specs.Numbers.{sector_no};
ghost use Rattle.layout.specs.Geometry.{blocks_of, sectors_of, Backs};
ghost use Rattle.entry.specs.Answer.{id_no};
ghost use Rattle.image.specs.Answer.{views_in, views};
ghost use Rattle.answer.specs.Answer.{reply_as, Leaves};

use answer::{Outcome, Refusal, Reply};
use entry::{Id, NewEntry};
use layout::{Geometry, Image, Sector};
use search::{Found, value};

// The value that is found, where the buffer is long enough and its bytes are right.
pub fn read(image: &Image, w: Sector, id: Id, buffer: &mut [u8]) -> Reply
    requires w_bound { sector_no w < sectors_of image.now.geometry }
    ensures answer { result ≡ reply_as (rule.read_entry (length buffer.old) (lookup (id_no id) (history (at_rest (sector_no w)) (views image.now)))) }
    ensures buffer { buffer.new ≡ rule.buffer_after (rule.read_entry (length buffer.old) (lookup (id_no id) (history (at_rest (sector_no w)) (views image.now)))) buffer.old }
{
    // "read uses let .. else to get place and length, otherwise returns refusal 8"
    let Some(
        Found {
            place,
            length,
            check,
        },
    ) = search::find(image, w, id)
    else {
        return Err(Refusal::Absent);
    };
    if buffer.len() < length {
        return Err(Refusal::ShortBuffer(length));
    }
    let start = place.number();
    let bytes = &image.bytes[start..start + length];
    if !value::passes(check, bytes) {
        return Err(Refusal::BadData);
    }
    value::copy(bytes, buffer);
    Ok(length)
}

// The deletion of an ID that has a value.
pub fn delete(
    image: &mut [u8],
    g: Geometry,
    w: Sector,
    id: Id,
    allowance: u32,
) -> Result<Outcome, Refusal>
    requires backs { Backs g image.old }
    requires rest { state_of (views_in g image.old) ≡ some (at_rest (sector_no w)) }
    ensures { Leaves (blocks_of g * block_size) (rule.delete_on (blocks_of g) (sectors_of g) (image_of (blocks_of g) (sectors_of g) image.old) (id_no id)) allowance image.old image.new result }
{
    let lent = Image {
        bytes: image,
        geometry: g,
    };
    search::find(&lent, w, id).ok_or(Refusal::Absent)?;
    change::make(image, g, w, &NewEntry::deletion(id), allowance)
}
