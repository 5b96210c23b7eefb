#![tactic(auto)]
// A program of the gate: what the calls answer and leave, on images of every state, held to what the rules say.
ghost use Rattle.std.specs.Prelude.{◌<◌, ◌≤◌};

use answer::{Numbers, Outcome, Refusal, Reply};
use layout::Geometry;
use std::io;

// ---- images of 3 sectors of 128 bytes, built block by block

// Bytes of an image, and blocks of a sector.
const IMAGE: usize = 384;

const BLOCKS: usize = 8;

// The cycles of the three sectors.
const FIRST: u8 = 3;

const SECOND: u8 = 2;

const THIRD: u8 = 255;

// The image with block b of sector s stored.
fn put(mut image: [u8; IMAGE], s: usize, b: usize, block: [u8; 16]) -> [u8; IMAGE]
    requires s_bound { s < 3 }
    requires b_bound { b < 8 }
{
    let start = (s * BLOCKS + b) * 16;
    image[start..start + 16].copy_from_slice(&block);
    image
}

// The closed sector 0: ID 7 with 3 bytes, and ID 8 with 12, which lie in block 0.
fn closed_sector(image: [u8; IMAGE]) -> [u8; IMAGE] {
    let text = *b"hello, truck";
    let data = *b"hello, truck\xFF\xFF\xFF\xFF";
    let old = *b"abc";
    let image = put(image, 0, 0, data);
    let image = put(
        image,
        0,
        4,
        encode::long_value(FIRST, 8, 12, 0, crc::crc32(&text)),
    );
    let image = put(image, 0, 5, encode::small_value(FIRST, 7, &old));
    let image = put(image, 0, 6, encode::close(FIRST));
    put(image, 0, 7, encode::lead(FIRST))
}

// At rest: sector 1 is working, and has a newer value of ID 7; sector 2 is the spare.
fn rest() -> [u8; IMAGE] {
    let new = [1, 2, 3, 4, 5, 6, 7, 8];
    let image = closed_sector([255; IMAGE]);
    let image = put(image, 1, 4, encode::small_value(SECOND, 7, &new));
    let image = put(image, 1, 5, encode::done(SECOND));
    let image = put(image, 1, 7, encode::lead(SECOND));
    put(image, 2, 7, encode::lead(THIRD))
}

// The image with the lowest bit of one byte changed.
fn damaged(mut image: [u8; IMAGE], s: usize, b: usize, byte: usize) -> [u8; IMAGE]
    requires s_bound { s < 3 }
    requires b_bound { b < 8 }
    requires byte_bound { byte < 16 }
{
    image[(s * BLOCKS + b) * 16 + byte] ^= 1;
    image
}

// As at rest, but with sector 1 closed: none is working.
fn mid_turn() -> [u8; IMAGE] {
    put(rest(), 1, 6, encode::close(SECOND))
}

// And sector 2 working, whose successor is still to be reopened.
fn not_reopened() -> [u8; IMAGE] {
    put(mid_turn(), 2, 5, encode::done(THIRD))
}

// ---- a line for each call

// Bytes of the buffer of a read.
const ROOM: usize = 16;

// What was asked of a read, and what came of it.
fn print_read(
    rt: &impl Print,
    name: &str,
    id: u32,
    room: usize,
    reply: Reply,
    buffer: [u8; ROOM],
) -> io::Result<()> {
    let Numbers { number, length, .. } = Numbers::from(reply);
    print!(rt; "{name}, ID {id} into {room}: {number} length {length} buffer ")?;
    let mut digits = [0; 2 * ROOM];
    let _ = hex::encode_to_slice(buffer, &mut digits);
    rt.write_all(&digits)?;
    println!(rt)
}

// What a call that stores answered and told as its last store, and the CRC-32 of the image after it.
fn print_made(
    rt: &impl Print,
    name: &str,
    allowance: u32,
    made: Result<Outcome, Refusal>,
    image: &[u8],
) -> io::Result<()> {
    let Numbers {
        number,
        stores,
        turns,
        ..
    } = Numbers::from(made);
    print!(rt; "{name}, allowance {allowance}: {number} stores {stores} turns {turns} last ")?;
    match made.ok().and_then(|outcome| outcome.last) {
        Some(store) => print!(rt; "{store}")?,
        None => print!(rt; "nothing")?,
    }
    println!(rt; " image {:08x}", crc::crc32(image))
}

// ---- reads

// A read into the first bytes of the buffer.
fn read(rt: &impl Print, name: &str, image: [u8; IMAGE], id: u32, room: usize) -> io::Result<()>
    requires { room ≤ 16 }
{
    let mut buffer = [0xEE; ROOM];
    let reply = store::read(&image, 128, 3, id, &mut buffer[..room]);
    print_read(rt, name, id, room, reply, buffer)
}

// A read of the image at rest as so many sectors of a size.
fn read_as(rt: &impl Print, name: &str, size: usize, count: usize, id: u32) -> io::Result<()> {
    let mut buffer = [0xEE; ROOM];
    let reply = store::read(&rest(), size, count, id, &mut buffer);
    print_read(rt, name, id, ROOM, reply, buffer)
}

// The newest value, one of more than 8 bytes, buffers that just fit or are too short, an ID without a value.
fn of_rest(rt: &impl Print) -> io::Result<()> {
    let image = rest();
    read(rt, "rest", image, 7, 16)?;
    read(rt, "rest", image, 7, 8)?;
    read(rt, "rest", image, 7, 7)?;
    read(rt, "rest", image, 7, 0)?;
    read(rt, "rest", image, 8, 12)?;
    read(rt, "rest", image, 8, 11)?;
    read(rt, "rest", image, 9, 16)?;
    read(rt, "rest", image, Geometry::RESERVED_ID, 16)
}

// A deletion hides the older value; what is no entry ends the reading of its sector; wrong data is told after a short
// buffer.
fn of_changed(rt: &impl Print) -> io::Result<()> {
    let deleted = put(rest(), 1, 3, encode::deletion(SECOND, 8));
    read(rt, "deleted", deleted, 8, 16)?;
    read(rt, "deleted", deleted, 7, 16)?;
    let stale = put(rest(), 1, 3, encode::deletion(FIRST, 7));
    read(rt, "entry of another cycle", stale, 7, 16)?;
    let broken = damaged(rest(), 1, 4, 15);
    read(rt, "newest entry damaged", broken, 7, 16)?;
    let bad = damaged(rest(), 0, 0, 11);
    read(rt, "data damaged", bad, 8, 12)?;
    read(rt, "data damaged", bad, 8, 11)?;
    read(rt, "data damaged", bad, 7, 16)
}

// Stores that are not at rest, and images that are none.
fn of_states(rt: &impl Print) -> io::Result<()> {
    read(rt, "mid-turn", mid_turn(), 7, 16)?;
    read(rt, "done, not reopened", not_reopened(), 7, 16)?;
    let two = put(rest(), 2, 5, encode::done(THIRD));
    read(rt, "two working", two, 7, 16)?;
    let used = put(rest(), 2, 5, encode::deletion(THIRD, 7));
    read(rt, "spare in use", used, 7, 16)?;
    let lost = damaged(rest(), 2, 7, 9);
    read(rt, "lead damaged", lost, 7, 16)?;
    read(rt, "lead damaged", lost, Geometry::RESERVED_ID, 16)
}

// Sizes that are not those of the image, or of none.
fn of_sizes(rt: &impl Print) -> io::Result<()> {
    read_as(rt, "2 sectors of 128", 128, 2, 7)?;
    read_as(rt, "2 sectors of 192", 192, 2, 7)?;
    read_as(rt, "1 sector of 384", 384, 1, 7)?;
    read_as(rt, "4 sectors of 96", 96, 4, 7)?;
    read_as(rt, "2 sectors of 128", 128, 2, Geometry::RESERVED_ID)
}

fn of_reads(rt: &impl Print) -> io::Result<()> {
    of_rest(rt)?;
    of_changed(rt)?;
    of_states(rt)?;
    of_sizes(rt)
}

// ---- formats and mounts

// Mid-turn, with blocks in sector 2 that would read under its next cycle: a close, a done, and behind the copy a
// deletion.
fn stale() -> [u8; IMAGE] {
    let image = put(mid_turn(), 2, 6, encode::close(0));
    let image = put(image, 2, 5, encode::done(0));
    put(image, 2, 4, encode::deletion(0, 7))
}

// The largest allowance.
const ENOUGH: u32 = u32::MAX;

// A mount with an allowance, and then one that may make all its stores.
fn mount_twice(
    rt: &impl Print,
    name: &str,
    mut image: [u8; IMAGE],
    allowance: u32,
) -> io::Result<()> {
    let first = store::mount(&mut image, 128, 3, allowance);
    print_made(rt, name, allowance, first, &image)?;
    let second = store::mount(&mut image, 128, 3, ENOUGH);
    print_made(rt, "  then", ENOUGH, second, &image)
}

// Every allowance up to the stores due.
fn mount_each(rt: &impl Print, name: &str, image: [u8; IMAGE], due: u32) -> io::Result<()>
    requires { due < 100 }
{
    for allowance in 0..=due {
        mount_twice(rt, name, image, allowance)?;
    }
    Ok(())
}

// A format of a store's bytes, and a mount of what it left.
fn format_and_mount(rt: &impl Print, count: usize, allowance: u32) -> io::Result<()> {
    let mut image = rest();
    let formatted = store::format(&mut image, 128, count, allowance);
    print_made(rt, "format", allowance, formatted, &image)?;
    let mounted = store::mount(&mut image, 128, count, 0);
    print_made(rt, "  mount", 0, mounted, &image)
}

fn of_mounts(rt: &impl Print) -> io::Result<()> {
    format_and_mount(rt, 3, 1)?;
    format_and_mount(rt, 3, 24)?;
    format_and_mount(rt, 3, 25)?;
    format_and_mount(rt, 4, 25)?;
    mount_each(rt, "mount at rest", rest(), 0)?;
    mount_each(rt, "mount with a damaged lead", damaged(rest(), 2, 7, 9), 0)?;
    mount_each(rt, "mount mid-turn", stale(), 8)?;
    mount_each(rt, "mount done, not reopened", not_reopened(), 1)
}

fn main(rt: HostRuntime) -> io::Result<()> {
    of_reads(&rt)?;
    of_mounts(&rt)
}
