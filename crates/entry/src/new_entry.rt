// What an append takes.
ghost use Rattle.std.specs.Prelude.{◌≡◌, [], length, MatchOption};
ghost use Rattle.entry.specs.Answer.{length_of};

use crate::{Head, Id};

// An entry that is to be appended: its head, and the bytes of its value; a deletion and a done have none.
#[derive(Clone, Copy)]
pub struct NewEntry<'a> {
    pub head: Head,
    pub value: &'a [u8],
    pub ghost sized: { length_of head ≡ length value.now },
}

impl<'a> NewEntry<'a> {
    ghost use Rattle.std.specs.Prelude.{◌^◌, ◌≤◌};
    ghost use Rattle.entry.specs.Answer.{id_no};

    pub fn done() -> NewEntry<'a>
        ensures head { result.head ≡ Head.Done }
        ensures value { result.value.now ≡ [] }
    {
        NewEntry {
            head: Head::Done,
            value: b"",
        }
    }

    pub fn deletion(id: Id) -> NewEntry<'a>
        ensures head { result.head ≡ Head.Deletion (id_no id) }
        ensures value { result.value.now ≡ [] }
    {
        NewEntry {
            head: Head::Deletion(id.number()),
            value: b"",
        }
    }

    // The value of an ID, if its length fits two bytes.
    pub fn value(id: Id, value: &'a [u8]) -> Option<NewEntry<'a>>
        ensures { MatchOption result (2 ^ 16 ≤ length value.entry.now) (λ made. (made.head ≡ Head.Value (id_no id) (length value.entry.now)) × (made.value.now ≡ value.entry.now)) }
    {
        let length = u16::try_from(value.len()).ok()?;
        Some(NewEntry {
            head: Head::Value(id.number(), length),
            value,
        })
    }
}
