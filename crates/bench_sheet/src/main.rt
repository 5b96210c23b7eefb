#![tactic(auto)]
// A program of the gate: the rows of the bench sheet, run. What it must write was worked out from the sheet.
ghost use Rattle.std.specs.Prelude.{◌≤◌};

use answer::Answer;
use console::{Command, LARGEST, Sizes, Told};
use std::io;

// The sizes of the rows.
const FOUR_OF_1024: Sizes = Sizes {
    sector_size: 1024,
    count: 4,
};

const FOUR_OF_128: Sizes = Sizes {
    sector_size: 128,
    count: 4,
};

const TWO_OF_128: Sizes = Sizes {
    sector_size: 128,
    count: 2,
};

// The largest allowance.
const ENOUGH: u32 = u32::MAX;

// A command with its trace, cut at an allowance.
fn run(
    rt: &impl Print,
    image: &mut [u8],
    sizes: Sizes,
    command: Command<'_>,
    allowance: u32,
) -> io::Result<()> {
    let _ = console::run(rt, image, sizes, command, allowance)?;
    Ok(())
}

// A command without its trace.
fn tell(rt: &impl Print, image: &mut [u8], sizes: Sizes, command: Command<'_>) -> io::Result<()> {
    println!(rt; "{}", Told(console::call(image, sizes, command, ENOUGH)))
}

fn read(rt: &impl Print, image: &[u8], sizes: Sizes, id: u32) -> io::Result<()> {
    let _ = console::show(rt, image, sizes, id, LARGEST)?;
    Ok(())
}

// A store without values.
fn fresh(image: &mut [u8], sizes: Sizes) {
    let _ = console::call(image, sizes, Command::Format, ENOUGH);
}

// Writes of consecutive IDs, counted.
fn write_ids(
    rt: &impl Print,
    image: &mut [u8],
    sizes: Sizes,
    value: &[u8],
    first: u32,
    last: u32,
) -> io::Result<()>
    requires first_le_last { first ≤ last }
    requires last_bound { last ≤ 1000 }
{
    let mut written: u32 = 0;
    let mut turned: u32 = 0;
    for id in first..=last {
        let made = console::call(image, sizes, Command::Write(id, value), ENOUGH);
        if let Ok(outcome) = made
            && let Answer::Done { turns, .. } = outcome.answer
        {
            written += 1;
            turned += u32::from(turns != 0);
        }
    }
    println!(rt; "IDs {first} to {last}: {written} written, {turned} with a turn")
}

// ---- rows 1 to 6, 4 sectors of 1024

fn row_1(rt: &impl Print) -> io::Result<()> {
    let value = [0xA5; 929];
    let mut image = [0xFF; 4096];
    fresh(&mut image, FOUR_OF_1024);
    print!(rt; "1. 4 x 1024, 928 bytes: ")?;
    tell(
        rt,
        &mut image,
        FOUR_OF_1024,
        Command::Write(1, &value[..928]),
    )?;
    print!(rt; "   929 bytes: ")?;
    tell(rt, &mut image, FOUR_OF_1024, Command::Write(1, &value))?;
    let mut small = [0xFF; 512];
    fresh(&mut small, FOUR_OF_128);
    print!(rt; "   4 x 128, 32 bytes: ")?;
    tell(rt, &mut small, FOUR_OF_128, Command::Write(1, &value[..32]))?;
    print!(rt; "   33 bytes: ")?;
    tell(rt, &mut small, FOUR_OF_128, Command::Write(1, &value[..33]))
}

fn row_2(rt: &impl Print, image: &mut [u8], value: &[u8]) -> io::Result<()> {
    print!(rt; "2. 4 x 1024, 8 bytes: ")?;
    write_ids(rt, image, FOUR_OF_1024, value, 1, 59)?;
    print!(rt; "   the 60th: ")?;
    run(rt, image, FOUR_OF_1024, Command::Write(60, value), ENOUGH)
}

fn row_3(rt: &impl Print, image: &mut [u8], value: &[u8]) -> io::Result<()> {
    print!(rt; "3. there: ")?;
    write_ids(rt, image, FOUR_OF_1024, value, 61, 177)?;
    print!(rt; "   the 178th: ")?;
    run(rt, image, FOUR_OF_1024, Command::Write(178, value), ENOUGH)?;
    print!(rt; "   ID 1 again: ")?;
    run(rt, image, FOUR_OF_1024, Command::Write(1, value), ENOUGH)?;
    print!(rt; "   ID 1 still: ")?;
    read(rt, image, FOUR_OF_1024, 1)
}

fn row_4(rt: &impl Print, image: &mut [u8], value: &[u8]) -> io::Result<()> {
    print!(rt; "4. delete of ID 1: ")?;
    run(rt, image, FOUR_OF_1024, Command::Delete(1), ENOUGH)?;
    print!(rt; "   the next new ID: ")?;
    tell(rt, image, FOUR_OF_1024, Command::Write(178, value))?;
    print!(rt; "   ID 1 now: ")?;
    read(rt, image, FOUR_OF_1024, 1)
}

fn rows_2_to_4(rt: &impl Print) -> io::Result<()> {
    let value = [0xA1, 0xA2, 0xA3, 0xA4, 0xA5, 0xA6, 0xA7, 0xA8];
    let mut space = [0xFF; 4096];
    let image: &mut [u8] = &mut space;
    fresh(image, FOUR_OF_1024);
    row_2(rt, image, &value)?;
    row_3(rt, image, &value)?;
    row_4(rt, image, &value)
}

fn row_5(rt: &impl Print) -> io::Result<()> {
    let value = [0x64; 64];
    let mut space = [0xFF; 4096];
    let image: &mut [u8] = &mut space;
    fresh(image, FOUR_OF_1024);
    print!(rt; "5. 4 x 1024, 64 bytes: ")?;
    write_ids(rt, image, FOUR_OF_1024, &value, 1, 11)?;
    print!(rt; "   ")?;
    write_ids(rt, image, FOUR_OF_1024, &value, 12, 33)?;
    print!(rt; "   the 34th: ")?;
    run(rt, image, FOUR_OF_1024, Command::Write(34, &value), ENOUGH)
}

// A line for each write of ID 7 that goes to another sector than the one before.
fn write_often(rt: &impl Print, image: &mut [u8], value: &[u8]) -> io::Result<()> {
    let mut last = None;
    for n in 1..=237 {
        let made = console::call(image, FOUR_OF_1024, Command::Write(7, value), ENOUGH);
        let next = made
            .ok()
            .and_then(|outcome| outcome.last)
            .map(|store| store.sector.number());
        if let Some(sector) = next
            && next != last
        {
            println!(rt; "   write {n} goes to sector {sector}")?;
        }
        last = next;
    }
    Ok(())
}

fn row_6(rt: &impl Print) -> io::Result<()> {
    let mut space = [0xFF; 4096];
    let image: &mut [u8] = &mut space;
    fresh(image, FOUR_OF_1024);
    println!(rt; "6. 4 x 1024, ID 7 with 8 bytes")?;
    write_often(rt, image, &[6; 8])
}

// ---- rows 7 to 14, most of them 2 sectors of 128

fn row_7(rt: &impl Print) -> io::Result<()> {
    let mut image = [0xFF; 256];
    print!(rt; "7. an image of blanks, mount: ")?;
    run(rt, &mut image, TWO_OF_128, Command::Mount, ENOUGH)
}

// A write of ID 7.
fn write(image: &mut [u8], value: &[u8]) {
    let _ = console::call(image, TWO_OF_128, Command::Write(7, value), ENOUGH);
}

// Three of them.
fn three(image: &mut [u8]) {
    fresh(image, TWO_OF_128);
    write(image, &[1; 8]);
    write(image, &[2; 8]);
    write(image, &[3; 8]);
}

fn row_9(rt: &impl Print, image: &mut [u8]) -> io::Result<()> {
    print!(rt; "9. 2 x 128, ID 7 with 8 bytes, the first: ")?;
    run(rt, image, TWO_OF_128, Command::Write(7, &[1; 8]), ENOUGH)?;
    print!(rt; "   the second: ")?;
    run(rt, image, TWO_OF_128, Command::Write(7, &[2; 8]), ENOUGH)?;
    print!(rt; "   the third: ")?;
    run(rt, image, TWO_OF_128, Command::Write(7, &[3; 8]), ENOUGH)?;
    print!(rt; "   the fourth: ")?;
    run(rt, image, TWO_OF_128, Command::Write(7, &[4; 8]), ENOUGH)
}

// The fourth write was cut: what a mount makes of it.
fn mended(rt: &impl Print, image: &mut [u8]) -> io::Result<()> {
    print!(rt; "   mount: ")?;
    run(rt, image, TWO_OF_128, Command::Mount, ENOUGH)?;
    print!(rt; "   read: ")?;
    read(rt, image, TWO_OF_128, 7)
}

fn row_10(rt: &impl Print, image: &mut [u8]) -> io::Result<()> {
    three(image);
    print!(rt; "10. the fourth, cut after 2: ")?;
    run(rt, image, TWO_OF_128, Command::Write(7, &[4; 8]), 2)?;
    print!(rt; "   read: ")?;
    read(rt, image, TWO_OF_128, 7)?;
    mended(rt, image)?;
    three(image);
    print!(rt; "   the fourth, cut after 3: ")?;
    run(rt, image, TWO_OF_128, Command::Write(7, &[4; 8]), 3)?;
    mended(rt, image)
}

// So many mounts that may make one store.
fn mounts(image: &mut [u8], count: u32) {
    for _ in 0..count {
        let _ = console::call(image, TWO_OF_128, Command::Mount, 1);
    }
}

// One more, and the cycle byte of sector 1 after it.
fn mount_once(rt: &impl Print, image: &mut [u8; 256]) -> io::Result<()> {
    run(rt, image, TWO_OF_128, Command::Mount, 1)?;
    println!(rt; "   cycle of sector 1: {}", image[241])
}

// Row 8 too: the counter goes from 255 to 0.
fn row_11(rt: &impl Print) -> io::Result<()> {
    let mut image = [0xFF; 256];
    three(&mut image);
    let _ = console::call(&mut image, TWO_OF_128, Command::Write(7, &[4; 8]), 2);
    mounts(&mut image, 254);
    print!(rt; "11. after the cut at 2, mounts of allowance 1, the 255th: ")?;
    mount_once(rt, &mut image)?;
    print!(rt; "   the 256th: ")?;
    mount_once(rt, &mut image)
}

fn row_12(rt: &impl Print, image: &mut [u8]) -> io::Result<()> {
    fresh(image, TWO_OF_128);
    print!(rt; "12. fresh, read of ID 0: ")?;
    read(rt, image, TWO_OF_128, 0)?;
    print!(rt; "   mount: ")?;
    run(rt, image, TWO_OF_128, Command::Mount, ENOUGH)?;
    print!(rt; "   delete of ID 0: ")?;
    run(rt, image, TWO_OF_128, Command::Delete(0), ENOUGH)
}

// All five calls.
fn off(rt: &impl Print, image: &mut [u8], sector_size: usize, count: usize) -> io::Result<()> {
    let sizes = Sizes { sector_size, count };
    run(rt, image, sizes, Command::Format, ENOUGH)?;
    run(rt, image, sizes, Command::Mount, ENOUGH)?;
    run(rt, image, sizes, Command::Write(1, b"a"), ENOUGH)?;
    run(rt, image, sizes, Command::Delete(1), ENOUGH)?;
    read(rt, image, sizes, 1)
}

fn row_13(rt: &impl Print) -> io::Result<()> {
    let mut small = [0xFF; 448];
    print!(rt; "13. 4 x 112: ")?;
    off(rt, &mut small, 112, 4)?;
    let mut odd = [0xFF; 544];
    print!(rt; "   4 x 136: ")?;
    off(rt, &mut odd, 136, 4)?;
    let mut large = [0xFF; 131104];
    print!(rt; "   2 x 65552: ")?;
    off(rt, &mut large, 65552, 2)?;
    let mut one = [0xFF; 1024];
    print!(rt; "   1 x 1024: ")?;
    off(rt, &mut one, 1024, 1)?;
    let mut many = [0xFF; 8320];
    print!(rt; "   65 x 128: ")?;
    off(rt, &mut many, 128, 65)
}

fn row_14(rt: &impl Print, image: &mut [u8]) -> io::Result<()> {
    print!(rt; "14. format cut after 1: ")?;
    run(rt, image, TWO_OF_128, Command::Format, 1)?;
    print!(rt; "   mount: ")?;
    run(rt, image, TWO_OF_128, Command::Mount, ENOUGH)
}

fn main(rt: HostRuntime) -> io::Result<()> {
    row_1(&rt)?;
    rows_2_to_4(&rt)?;
    row_5(&rt)?;
    row_6(&rt)?;
    row_7(&rt)?;
    let mut space = [0xFF; 256];
    let image: &mut [u8] = &mut space;
    fresh(image, TWO_OF_128);
    row_9(&rt, image)?;
    row_10(&rt, image)?;
    row_11(&rt)?;
    row_12(&rt, image)?;
    row_13(&rt)?;
    row_14(&rt, image)
}
