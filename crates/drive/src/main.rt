#![tactic(auto)]
// drive IMAGE: runs a script from standard input on the image in a file. The script's first line is the sector size and
// the number of sectors; each further line is a command.
ghost use Rattle.std.specs.Prelude.{◌≤◌};

use console::{Command, LARGEST, Sizes, part};
use std::env::{Env, FillError};
use std::fs::{File, OpenOptions};
use std::io::{ErrorKind, Read, Write};
use std::rt::Files;
use std::{fmt, io, str};

// Bytes of the longest path: an array, as the buffers below.
const PATH: usize = 4096;

// Bytes of what is read of the script at a time, of the longest line, and of the values that it can hold. There is no
// heap, so each has a buffer of fixed size: an array, since what fills it asks for a slice, and an ArrayVec lends none
// of its free places. Pushed to an ArrayVec, a line needs a flag where it is too long, and took a tenth longer to read.
const CHUNK: usize = 65536;

const LINE: usize = 262144;

const VALUE: usize = LINE / 2;

// The allowance where none is given.
const ENOUGH: u32 = u32::MAX;

// The length of a read's buffer where none is given.
const ROOM: u32 = LARGEST as u32;

// Why a run ends before its script does: an error of the system, or what the line `error ..` tells.
#[derive(Debug, Drop)]
enum Stop {
    System(io::Error),
    Usage,
    NoSizes,
    SizesTooLarge,
    ImageTooLarge,
    Unreadable,
    Unwritable,
}

impl From<io::Error> for Stop {
    fn from(e: io::Error) -> Stop {
        Stop::System(e)
    }
}

impl fmt::Display for Stop {
    fn fmt<W: fmt::Write>(&self, f: &mut fmt::Formatter<W>) -> fmt::Result {
        match self {
            Stop::System(e) => write!(f, "{e}"),
            Stop::Usage => write!(f, "usage: drive IMAGE"),
            Stop::NoSizes => write!(f, "the first line is no sizes"),
            Stop::SizesTooLarge => write!(f, "sizes too large for a new image"),
            Stop::ImageTooLarge => write!(f, "the image is larger than {LARGEST} bytes"),
            Stop::Unreadable => write!(f, "the image cannot be read"),
            Stop::Unwritable => write!(f, "the image cannot be written"),
        }
    }
}

impl std::error::Error for Stop {}

// ---- lines

// A script, read by chunks: the bytes of the chunk from `at` up to `end` were read and are not taken yet. (The
// library's BufReader has its chunk from an allocator, and there is no heap; without a chunk each byte would be a
// system call.)
#[derive(Drop)]
struct Script<R> {
    reader: R,
    chunk: [u8; CHUNK],
    at: usize,
    end: usize,
    ghost within: { end ≤ 65536 },
}

impl<R: Read> Script<R> {
    fn new(reader: R) -> Script<R> {
        Script {
            reader,
            chunk: [0; CHUNK],
            at: 0,
            end: 0,
        }
    }

    // The next byte, if there is one.
    fn next_byte(&mut self) -> io::Result<Option<u8>> {
        if self.end <= self.at {
            self.end = self.reader.read(&mut self.chunk)?;
            self.at = 0;
        }
        if self.end <= self.at {
            return Ok(None);
        }
        let byte = self.chunk[self.at];
        self.at += 1;
        Ok(Some(byte))
    }

    // The next line without its end, if there is one. One that does not fit counts as an empty one, which is no command
    // either.
    fn next_line<'a>(&mut self, line: &'a mut [u8]) -> io::Result<Option<&'a [u8]>> {
        for size in 0..usize::MAX {
            match self.next_byte()? {
                None if size == 0 => return Ok(None),
                None | Some(b'\n') => return Ok(Some(line.get(..size).unwrap_or(&[]))),
                Some(byte) if size < line.len() => line[size] = byte,
                Some(_) => {}
            }
        }
        // No run reads so many bytes, but a proved loop has to end.
        Ok(Some(&[]))
    }
}

// ---- numbers and commands

// A decimal number without sign. The library's parse takes a sign too.
fn number_of(text: &[u8]) -> Option<u32> {
    if !text.iter().all(u8::is_ascii_digit) {
        return None;
    }
    str::from_utf8(text).ok()?.parse().ok()
}

// The number of a word, or the one that stands for it where it is left out.
fn number_or(word: Option<&[u8]>, otherwise: u32) -> Option<u32> {
    word.map_or(Some(otherwise), number_of)
}

// Pairs of hex digits, at least one, or `-` for no bytes: put at the start of the buffer.
fn bytes_of<'a>(text: &[u8], buffer: &'a mut [u8]) -> Option<&'a [u8]> {
    match text {
        b"-" => Some(&[]),
        [] => None,
        _ => {
            let value = buffer.get_mut(..text.len() / 2)?;
            hex::decode_to_slice(text, value).ok()?;
            Some(value)
        }
    }
}

// What a line asks for: a call that stores, with its allowance; a read, with the length of its buffer.
#[derive(Clone, Copy)]
enum Task<'a> {
    Store(Command<'a>, u32),
    Read(u32, u32),
}

// `format [ALLOWANCE]`, `mount [ALLOWANCE]`, `write ID HEX [ALLOWANCE]`, `delete ID [ALLOWANCE]`,
// `read ID [BUFFER_LENGTH]`
fn task_of<'a>(line: &[u8], buffer: &'a mut [u8]) -> Option<Task<'a>> {
    let mut words = line.split(|byte| *byte == b' ');
    let task = match words.next()? {
        b"format" => Task::Store(Command::Format, number_or(words.next(), ENOUGH)?),
        b"mount" => Task::Store(Command::Mount, number_or(words.next(), ENOUGH)?),
        b"write" => {
            let id = number_of(words.next()?)?;
            let value = bytes_of(words.next()?, buffer)?;
            Task::Store(Command::Write(id, value), number_or(words.next(), ENOUGH)?)
        }
        b"delete" => {
            let id = number_of(words.next()?)?;
            Task::Store(Command::Delete(id), number_or(words.next(), ENOUGH)?)
        }
        b"read" => Task::Read(number_of(words.next()?)?, number_or(words.next(), ROOM)?),
        _ => return None,
    };
    words.next().is_none().then_some(task)
}

// `SECTOR_SIZE COUNT`
fn sizes_of(line: &[u8]) -> Option<Sizes> {
    let mut words = line.split(|byte| *byte == b' ');
    let sector_size = number_of(words.next()?)? as usize;
    let count = number_of(words.next()?)? as usize;
    words
        .next()
        .is_none()
        .then_some(Sizes { sector_size, count })
}

// ---- the image and its file

// The length of an image that is not there yet: as many bytes as its sizes say.
fn new_length(sizes: Sizes) -> Result<usize, Stop> {
    sizes
        .sector_size
        .checked_mul(sizes.count)
        .filter(|length| *length <= LARGEST)
        .ok_or(Stop::SizesTooLarge)
}

// Reads until the image is full or the file ends, and answers how many bytes were read. The library's `read_exact` does
// not tell that of a shorter file.
fn read_full(file: &mut impl Read, image: &mut [u8]) -> io::Result<usize> {
    let mut done = 0;
    while done < image.len() {
        let got = file.read(&mut image[done..])?;
        if got == 0 {
            break;
        }
        done += got;
    }
    Ok(done)
}

// Reads all of the file, and answers how many bytes it has, or nothing where they do not fit.
fn read_all(file: &mut impl Read, image: &mut [u8]) -> io::Result<Option<usize>> {
    let length = read_full(file, image)?;
    let more = file.read(&mut [0; 1])?;
    Ok((more == 0).then_some(length))
}

// The image's file. The library opens a file by a name in UTF-8, and by no other.
#[derive(Drop)]
struct Disk<'a, R> {
    rt: &'a R,
    path: &'a str,
}

impl<R: Files> Disk<'_, R> {
    // Reads the file, and answers the image's length: the file's, or where there is none that of its sizes.
    fn load(&self, sizes: Sizes, image: &mut [u8]) -> Result<usize, Stop> {
        match File::open(self.rt, self.path) {
            Ok(mut file) => read_all(&mut file, image)
                .map_err(|_| Stop::Unreadable)?
                .ok_or(Stop::ImageTooLarge),
            Err(e) if e.kind() == ErrorKind::NotFound => new_length(sizes),
            Err(_) => Err(Stop::Unreadable),
        }
    }

    // The file as it is, or a new one where that cannot be.
    fn open_update(&self) -> io::Result<R::File> {
        OpenOptions::new()
            .read(true)
            .write(true)
            .open(self.rt, self.path)
            .or_else(|_| OpenOptions::new()
                .write(true)
                .create_new(true)
                .open(self.rt, self.path))
    }

    // Brings the file up to date, in place.
    fn save(&self, image: &[u8]) -> Result<(), Stop> {
        self.open_update()
            .and_then(|mut file| file.write_all(image))
            .map_err(|_| Stop::Unwritable)
    }
}

// ---- the script

// Does what a line asks for, and answers whether the image was stored to.
fn perform(
    rt: &impl Print,
    image: &mut [u8],
    sizes: Sizes,
    task: Option<Task<'_>>,
) -> io::Result<bool> {
    match task {
        Some(Task::Store(command, allowance)) => {
            let made = console::run(rt, image, sizes, command, allowance)?;
            Ok(made.is_ok_and(|outcome| outcome.last.is_some()))
        }
        Some(Task::Read(id, room)) => {
            let _ = console::show(rt, image, sizes, id, room as usize)?;
            Ok(false)
        }
        None => {
            println!(rt; "bad command")?;
            Ok(false)
        }
    }
}

// One line. What a call stored is in the file also where its answer cannot be printed: the image tells then whether it
// stored.
fn step<R: Files + Print>(
    disk: &Disk<'_, R>,
    image: &mut [u8],
    sizes: Sizes,
    line: &[u8],
) -> Result<(), Stop> {
    // Both before the line is read: after that the compiler clears the second one twice.
    let mut buffer = [0; VALUE];
    let mut space = [0; LARGEST];
    let task = task_of(line, &mut buffer);
    let kept = part::copied(image, &mut space);
    let performed = perform(disk.rt, image, sizes, task);
    let is_due = match performed {
        Ok(is_stored) => is_stored,
        Err(_) => image[..] != space[..kept],
    };
    let saved = if is_due { disk.save(image) } else { Ok(()) };
    performed?;
    saved
}

// The lines after the first.
fn steps<R: Files + Print>(
    disk: &Disk<'_, R>,
    script: &mut Script<impl Read>,
    image: &mut [u8],
    sizes: Sizes,
    text: &mut [u8],
) -> Result<(), Stop> {
    // Counts the lines, since a proved loop has to end: no script has so many.
    for _ in 0..u64::MAX {
        let Some(line) = script.next_line(text)? else {
            break;
        };
        step(disk, image, sizes, line)?;
    }
    Ok(())
}

fn drive<R: Files + Print + io::Input>(rt: &R, path: &[u8]) -> Result<(), Stop> {
    let mut script = Script::new(rt.reader());
    let mut text = [0; LINE];
    let line = script.next_line(&mut text)?;
    let sizes = line.and_then(sizes_of).ok_or(Stop::NoSizes)?;
    let path = str::from_utf8(path).map_err(|_| Stop::Unreadable)?;
    let disk = Disk { rt, path };
    // A new image is blank.
    let mut space = [0xFF; LARGEST];
    let length = disk.load(sizes, &mut space)?;
    let end = part::least(length, &space);
    steps(&disk, &mut script, &mut space[..end], sizes, &mut text)
}

// The one argument is the path. A second one is longer than no bytes and does not fit in them.
fn run<R: Files + Print + io::Input + Env>(rt: &R) -> Result<(), Stop> {
    let mut path = [0; PATH];
    let length = rt.arg(1, &mut path).map_err(|_| Stop::Usage)?;
    if !matches!(rt.arg(2, &mut []), Err(FillError::NotPresent)) {
        return Err(Stop::Usage);
    }
    drive(rt, &path[..length])
}

fn main(rt: HostRuntime) -> io::Result<()> {
    match run(&rt) {
        Ok(()) => Ok(()),
        Err(Stop::System(e)) => Err(e),
        Err(stop) => println!(rt; "error {stop}"),
    }
}
