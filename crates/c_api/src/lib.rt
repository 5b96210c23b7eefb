#![tactic(auto)]
// The calls as C sees them: `include/gustorchard.h` declares them. A slice is a pointer and a length there.
ghost use Rattle.std.specs.Prelude.{◌≡◌, length, set};
ghost use Rattle.rules.specs.Calls as rule;
ghost use Rattle.answer.specs.Answer.{numbers_of};
ghost use Rattle.c_api.specs.Told.{Tells};

use answer::Numbers;

// A place that a short array lacks is left out.
fn put(numbers: &mut [u64], place: usize, n: u64)
    ensures { numbers.new ≡ set numbers.old place n }
{
    if place < numbers.len() {
        numbers[place] = n;
    }
}

// Gives back the number of an answer, and tells its other numbers in the lent array.
#[tactic(auto, unfolding(crate::specs::Told::told))]
fn tell(told: Numbers, numbers: &mut [u64]) -> u32
    ensures { Tells (numbers_of told) numbers.old numbers.new result }
{
    put(numbers, 0, told.stores as u64);
    put(numbers, 1, told.turns as u64);
    put(numbers, 2, told.length as u64);
    told.number
}

// Makes an empty store of whatever bytes the image holds.
#[unsafe(no_mangle)]
pub extern "C" fn gust_format(
    image: &mut [u8],
    sector_size: usize,
    count: usize,
    allowance: u32,
    numbers: &mut [u64],
) -> u32
    ensures answer { Tells (rule.answer_numbers (rule.answer (rule.format_due sector_size count image.old) allowance)) numbers.old numbers.new result }
    ensures image { image.new ≡ rule.leaves sector_size (rule.format_due sector_size count image.old) allowance image.old }
{
    let made = store::format(image, sector_size, count, allowance);
    tell(Numbers::from(made), numbers)
}

// Brings a store to rest: makes what a cut left of a turn.
#[unsafe(no_mangle)]
pub extern "C" fn gust_mount(
    image: &mut [u8],
    sector_size: usize,
    count: usize,
    allowance: u32,
    numbers: &mut [u64],
) -> u32
    ensures answer { Tells (rule.answer_numbers (rule.answer (rule.mount_due sector_size count image.old) allowance)) numbers.old numbers.new result }
    ensures image { image.new ≡ rule.leaves sector_size (rule.mount_due sector_size count image.old) allowance image.old }
{
    let made = store::mount(image, sector_size, count, allowance);
    tell(Numbers::from(made), numbers)
}

// Copies the value of an ID into the first bytes of the buffer, and leaves the rest of it. A refused read leaves all of
// it.
#[unsafe(no_mangle)]
pub extern "C" fn gust_read(
    image: &[u8],
    sector_size: usize,
    count: usize,
    id: u32,
    buffer: &mut [u8],
    numbers: &mut [u64],
) -> u32
    ensures answer { Tells (rule.reply_numbers (rule.read sector_size count image.now id (length buffer.old))) numbers.old numbers.new result }
    ensures buffer { buffer.new ≡ rule.buffer_after (rule.read sector_size count image.now id (length buffer.old)) buffer.old }
    ensures image { image.exit.now ≡ image.entry.now }
{
    let reply = store::read(image, sector_size, count, id, buffer);
    tell(Numbers::from(reply), numbers)
}

// Stores the value of an ID: the least number of turns that make room for it, and then the entry.
#[unsafe(no_mangle)]
pub extern "C" fn gust_write(
    image: &mut [u8],
    sector_size: usize,
    count: usize,
    id: u32,
    value: &[u8],
    allowance: u32,
    numbers: &mut [u64],
) -> u32
    ensures answer { Tells (rule.answer_numbers (rule.answer (rule.write_due sector_size count image.old id value.now) allowance)) numbers.old numbers.new result }
    ensures image { image.new ≡ rule.leaves sector_size (rule.write_due sector_size count image.old id value.now) allowance image.old }
    ensures value { value.exit.now ≡ value.entry.now }
{
    let made = store::write(image, sector_size, count, id, value, allowance);
    tell(Numbers::from(made), numbers)
}

// Stores that an ID has no value, where it has one.
#[unsafe(no_mangle)]
pub extern "C" fn gust_delete(
    image: &mut [u8],
    sector_size: usize,
    count: usize,
    id: u32,
    allowance: u32,
    numbers: &mut [u64],
) -> u32
    ensures answer { Tells (rule.answer_numbers (rule.answer (rule.delete_due sector_size count image.old id) allowance)) numbers.old numbers.new result }
    ensures image { image.new ≡ rule.leaves sector_size (rule.delete_due sector_size count image.old id) allowance image.old }
{
    let made = store::delete(image, sector_size, count, id, allowance);
    tell(Numbers::from(made), numbers)
}
