// The answers in words.
use crate::{LARGEST, part};
use answer::{Numbers, Outcome, Refusal, Reply};
use std::{fmt, io};

// Hex digits of the longest buffer. There is no heap, so they are an array, whose first ones `encode_to_slice` fills.
const DIGITS: usize = 2 * LARGEST;

// "refused NUMBER NAME"
#[derive(Clone, Copy)]
struct Refused(Refusal);

impl fmt::Display for Refused {
    fn fmt<W: fmt::Write>(&self, f: &mut fmt::Formatter<W>) -> fmt::Result {
        let refusal = self.0;
        let number = Numbers::from(refusal).number;
        write!(f, "refused {number} {refusal}")
    }
}

// What a call that stores answered.
#[derive(Clone, Copy)]
pub struct Told(pub Result<Outcome, Refusal>);

impl fmt::Display for Told {
    fn fmt<W: fmt::Write>(&self, f: &mut fmt::Formatter<W>) -> fmt::Result {
        match self.0 {
            Ok(outcome) => write!(f, "{}", outcome.answer),
            Err(refusal) => write!(f, "{}", Refused(refusal)),
        }
    }
}

// Prints bytes in hex, as far as they fit. All digits go out at once: a Display, whose digits go through a small
// buffer, takes ten times as long for 65,536 bytes.
fn print_bytes(rt: &impl Print, bytes: &[u8]) -> io::Result<()> {
    let mut text = part::zeros::<DIGITS>();
    let size = part::least(LARGEST, bytes);
    let digits = &mut text[..2 * size];
    let _ = hex::encode_to_slice(&bytes[..size], digits);
    rt.write_all(digits)
}

// What a read answered. The buffer begins with the value, if there is one.
pub(crate) fn print_reply(rt: &impl Print, reply: Reply, buffer: &[u8]) -> io::Result<()> {
    match reply {
        Ok(length) => {
            print!(rt; "value {length} ")?;
            print_bytes(rt, &buffer[..part::least(length, buffer)])?;
            println!(rt)
        }
        Err(refusal) => println!(rt; "{}", Refused(refusal)),
    }
}
