#![tactic(auto)]
// The demo: a value written, a write cut in the middle, a mount, and the old value still there.
use console::{Command, Sizes, Told};
use std::io;

// 2 sectors of 128 bytes, and the ID of the record.
const SIZES: Sizes = Sizes {
    sector_size: 128,
    count: 2,
};

const ID: u32 = 7;

const ENOUGH: u32 = u32::MAX;

fn write(rt: &impl Print, image: &mut [u8], record: &[u8], allowance: u32) -> io::Result<()> {
    let _ = console::run(rt, image, SIZES, Command::Write(ID, record), allowance)?;
    Ok(())
}

fn read(rt: &impl Print, image: &[u8]) -> io::Result<()> {
    let _ = console::show(rt, image, SIZES, ID, 8)?;
    Ok(())
}

// The store is made, and the record written until its sector is full.
fn fill(rt: &impl Print, image: &mut [u8]) -> io::Result<()> {
    println!(rt;
        "A store for one record, in an image of 2 sectors of 128 bytes. A line `SECTOR BLOCK KIND` is one block stored."
    )?;
    println!(rt;
        "\n1. Format the image: every block gets its final bytes, the lead of sector 0 last."
    )?;
    let formatted = console::call(image, SIZES, Command::Format, ENOUGH);
    println!(rt; "{}", Told(formatted))?;
    println!(rt;
        "\n2. Write the record \"week2431\" under ID 7. The entry itself holds it, so one store does it."
    )?;
    write(rt, image, b"week2431", ENOUGH)?;
    println!(rt;
        "\n3. Write it twice more, as the weeks pass. Nothing is overwritten: each time there is one more entry, \
         and the newest counts."
    )?;
    write(rt, image, b"week2432", ENOUGH)?;
    write(rt, image, b"week2433", ENOUGH)
}

// A write is cut in the middle of a turn.
fn fail(rt: &impl Print, image: &mut [u8]) -> io::Result<()> {
    println!(rt;
        "\n4. Sector 0 is full. The next write, of \"week2434\", closes it and moves to sector 1, in 5 stores. \
         The power fails after 2 of them."
    )?;
    write(rt, image, b"week2434", 2)?;
    println!(rt; "\n5. The unit starts again. Until it mounts the store, it reads nothing.")?;
    read(rt, image)
}

// The mount mends it.
fn mend(rt: &impl Print, image: &mut [u8]) -> io::Result<()> {
    println!(rt; "\n6. The mount sees the turn that was cut, and makes it anew to its end.")?;
    let _ = console::run(rt, image, SIZES, Command::Mount, ENOUGH)?;
    println!(rt;
        "\n7. The record is still there: the last one whose write was finished, \"week2433\"."
    )?;
    read(rt, image)?;
    println!(rt; "\n8. Write \"week2434\" again, this time to the end, and read it back.")?;
    write(rt, image, b"week2434", ENOUGH)?;
    read(rt, image)
}

fn main(rt: HostRuntime) -> io::Result<()> {
    let mut space = [0xFF; 256];
    let image: &mut [u8] = &mut space;
    fill(&rt, image)?;
    fail(&rt, image)?;
    mend(&rt, image)
}
