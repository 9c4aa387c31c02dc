// The lines of standard input, told apart by their first letter. Input comes in pieces of 65,536 bytes, each of which ends with a line.
ghost use Rattle.std.specs.Prelude.{◌≤◌, IfOk, length};

use crate::{batches, bodies, locations, number};
use std::io::{self, Read};

// Lines that are a case, and those on which both answers are the same.
#[derive(Clone, Copy, Debug, PartialEq, Eq)]
pub(crate) struct Counts {
    pub(crate) cases: u64,
    pub(crate) agree: u64,
}

// As many pieces as there may be.
const PIECES: usize = 64;

pub(crate) fn run(rt: &(impl Input + Print)) -> io::Result<()> {
    let mut counts = Counts { cases: 0, agree: 0 };
    for _ in 0..PIECES {
        counts = piece(rt, counts)?;
    }
    let Counts { cases, agree } = counts;
    println!(rt; "{agree} of {cases} answers agree")
}

// The counts after the next piece of input.
fn piece(rt: &(impl Input + Print), before: Counts) -> io::Result<Counts> {
    let mut text = [0u8; 65_536];
    let n = read_full(rt, &mut text)?;
    lines(rt, &text[..n], before)
}

// Reads standard input to its end, or until the buffer is full.
fn read_full(rt: &impl Input, buf: &mut [u8]) -> io::Result<usize>
    ensures { IfOk result (λ n. n ≤ length buf.new) }
{
    let mut reader = rt.reader();
    let mut n = 0;
    while n < buf.len() {
        let more = reader.read(&mut buf[n..])?;
        if more == 0 {
            break;
        }
        n += more;
    }
    Ok(n)
}

fn lines(rt: &impl Print, text: &[u8], before: Counts) -> io::Result<Counts> {
    let mut counts = before;
    let mut at = 0;
    while at < text.len() {
        let end = line::find(text, at, b'\n');
        if text.len() <= end {
            return Ok(counts);
        }
        let line = line::part(text, at, end);
        counts = counted(rt, counts, compared(line), line)?;
        at = end + 1;
    }
    Ok(counts)
}

// The counts after a line; one that differs is named.
fn counted(
    rt: &impl Print,
    counts: Counts,
    agrees: Option<bool>,
    line: &[u8],
) -> io::Result<Counts> {
    match agrees {
        Some(true) => Ok(Counts {
            cases: counts.cases.saturating_add(1),
            agree: counts.agree.saturating_add(1),
        }),
        Some(false) => {
            rt.write_all(b"differs: ")?;
            rt.write_all(line::word(line, 0))?;
            rt.write_all(b" ")?;
            rt.write_all(line::word(line, 1))?;
            rt.write_all(b"\n")?;
            Ok(Counts {
                cases: counts.cases.saturating_add(1),
                ..counts
            })
        }
        None => Ok(counts),
    }
}

// Whether both answers to a line are the same, where it is a case.
fn compared(line: &[u8]) -> Option<bool> {
    match line::first_letter(line) {
        b'r' => Some(number::read(line)),
        b'n' => Some(number::written(line)),
        b'c' => Some(number::checksum(line)),
        b'h' => Some(batches::header(line)),
        b'o' => Some(bodies::one(line)),
        b'i' | b'f' => Some(bodies::read(line)),
        b'b' => Some(bodies::written(line)),
        b'w' | b'u' => Some(batches::written(line)),
        b'v' => Some(batches::view(line)),
        b's' => Some(batches::status(line)),
        b'm' => Some(locations::moved(line)),
        b't' => Some(locations::taken(line)),
        _ => None,
    }
}
