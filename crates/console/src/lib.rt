#![tactic(auto)]
// The driver's commands on an image in memory: each is one call of the store, and its answer in words.
pub mod part;
mod words;

ghost use Rattle.std.specs.Prelude.{◌≡◌, ◌≤◌, min, length, IfOk};
ghost use Rattle.rules.specs.Calls as rule;
ghost use Rattle.budget.specs.Budget.{last_of};
ghost use Rattle.answer.specs.Answer.{reply_numbers_of, Leaves};
ghost use Rattle.console.specs.Due.{due_of, largest};

use answer::{Answer, Outcome, Refusal, Reply};
use budget::Store;
use std::io;
pub use words::Told;

// The bytes of a sector, and how many sectors an image has: any numbers, since the store refuses those that are off.
// (The image goes beside them: a type of both would be two, as it is lent to be read or to be stored to.)
#[derive(Clone, Copy)]
pub struct Sizes {
    pub sector_size: usize,
    pub count: usize,
}

// The commands that store: a write with its ID and value, a delete with its ID.
#[derive(Clone, Copy)]
pub enum Command<'a> {
    Format,
    Mount,
    Write(u32, &'a [u8]),
    Delete(u32),
}

// Bytes of the largest image, and of the longest buffer of a read. There is no heap, so each is an array of so many
// bytes: what fills it asks for a slice, and an ArrayVec lends none of its free places.
pub const LARGEST: usize = 65536;

// The call that a command asks for.
#[tactic(auto, unfolding(crate::specs::Due::due_of))]
pub fn call(
    image: &mut [u8],
    sizes: Sizes,
    command: Command<'_>,
    allowance: u32,
) -> Result<Outcome, Refusal>
    ensures outcome { Leaves sizes.sector_size (due_of sizes.sector_size sizes.count command.entry image.old)
        allowance image.old image.new result }
    ensures command { command.exit ≡ command.entry }
{
    let Sizes { sector_size, count } = sizes;
    match command {
        Command::Format => store::format(image, sector_size, count, allowance),
        Command::Mount => store::mount(image, sector_size, count, allowance),
        Command::Write(id, value) => store::write(image, sector_size, count, id, value, allowance),
        Command::Delete(id) => store::delete(image, sector_size, count, id, allowance),
    }
}

// The k-th store of the command: the last one of the command on a copy of the image, with an allowance of k.
fn kth_store(before: &[u8], sizes: Sizes, command: Command<'_>, k: u32) -> Option<Store>
    requires { length before.now ≤ largest }
    ensures { result ≡ last_of None (rule.made (due_of sizes.sector_size sizes.count command.entry before.now) k) }
{
    let mut space = part::zeros::<LARGEST>();
    let size = part::copied(before, &mut space);
    call(&mut space[..size], sizes, command, k).ok()?.last
}

// A line for each store that the answer tells, by the store's own account of it.
fn print_trace(
    rt: &impl Print,
    before: &[u8],
    sizes: Sizes,
    command: Command<'_>,
    answer: Answer,
) -> io::Result<()>
    requires { length before.now ≤ largest }
{
    let (Answer::Done { stores, .. } | Answer::Cut { stores }) = answer;
    for k in 1..=stores {
        if let Some(store) = kth_store(before, sizes, command, k) {
            println!(rt; "{store}")?;
        }
    }
    Ok(())
}

// Makes the call, and prints its answer and the trace. The trace is of images of at most 65,536 bytes. The call is made
// to its end also where its answer cannot be printed.
pub fn run(
    rt: &impl Print,
    image: &mut [u8],
    sizes: Sizes,
    command: Command<'_>,
    allowance: u32,
) -> io::Result<Result<Outcome, Refusal>>
    ensures outcome { IfOk result (λ made.
        Leaves sizes.sector_size (due_of sizes.sector_size sizes.count command.entry image.old)
        allowance image.old image.new made) }
    ensures image { image.new
        ≡ rule.leaves sizes.sector_size (due_of sizes.sector_size sizes.count command.entry image.old)
        allowance image.old }
    ensures command { command.exit ≡ command.entry }
{
    let mut space = part::zeros::<LARGEST>();
    let size = part::copied(image, &mut space);
    let made = call(image, sizes, command, allowance);
    println!(rt; "{}", Told(made))?;
    if let Ok(outcome) = made {
        print_trace(rt, &space[..size], sizes, command, outcome.answer)?;
    }
    Ok(made)
}

// Reads an ID into a buffer of so many bytes, or of the largest, which any value fits, and prints the value or the
// refusal.
pub fn show(rt: &impl Print, image: &[u8], sizes: Sizes, id: u32, room: usize) -> io::Result<Reply>
    ensures answer { IfOk result (λ reply. reply_numbers_of reply
        ≡ rule.reply_numbers (rule.read sizes.sector_size sizes.count image.now id (min room largest))) }
    ensures image { image.exit.now ≡ image.entry.now }
{
    let mut space = part::zeros::<LARGEST>();
    let buffer: &mut [u8] = &mut space;
    let size = part::least(room, buffer);
    let Sizes { sector_size, count } = sizes;
    let reply = store::read(image, sector_size, count, id, &mut buffer[..size]);
    words::print_reply(rt, reply, buffer)?;
    Ok(reply)
}
