// Words of a line: text, numbers and bytes in hex, each after a space.
use refusal::{Reason, Refusal};
use std::io;

pub(crate) fn start(rt: &impl Print, word: &[u8]) -> io::Result<()> {
    rt.write_all(word)
}

// Begins the line of an answer with the kind and the name of the case.
pub(crate) fn head(rt: &impl Print, line: &[u8]) -> io::Result<()> {
    start(rt, line::word(line, 0))?;
    word(rt, line::word(line, 1))
}

pub(crate) fn word(rt: &impl Print, word: &[u8]) -> io::Result<()> {
    rt.write_all(b" ")?;
    rt.write_all(word)
}

pub(crate) fn number(rt: &impl Print, n: u64) -> io::Result<()> {
    print!(rt; " {n}")
}

pub(crate) fn numbers(rt: &impl Print, all: &[u64]) -> io::Result<()> {
    for &n in all {
        number(rt, n)?;
    }
    Ok(())
}

// Eight digits of a checksum.
pub(crate) fn checksum(rt: &impl Print, sum: u32) -> io::Result<()> {
    print!(rt; " {sum:08x}")
}

// Four bytes go out at once, since each write is a call of the system.
pub(crate) fn hex(rt: &impl Print, bytes: &[u8]) -> io::Result<()> {
    rt.write_all(b" ")?;
    let (fours, rest) = bytes.as_chunks::<4>();
    for &four in fours {
        let [a, b, c, d] = four;
        let digits = [
            high(a),
            low(a),
            high(b),
            low(b),
            high(c),
            low(c),
            high(d),
            low(d),
        ];
        rt.write_all(&digits)?;
    }
    for &b in rest {
        rt.write_all(&[high(b), low(b)])?;
    }
    Ok(())
}

// The digits of a byte; a format would take half as long again.
fn high(b: u8) -> u8 {
    digit(b / 16)
}

fn low(b: u8) -> u8 {
    digit(b % 16)
}

// The digit of a value below 16.
fn digit(n: u8) -> u8 {
    if n < 10 { b'0' + n } else { b'a' + n % 16 - 10 }
}

// The same, with `-` for none.
pub(crate) fn bytes(rt: &impl Print, bytes: &[u8]) -> io::Result<()> {
    if bytes.is_empty() {
        word(rt, b"-")
    } else {
        hex(rt, bytes)
    }
}

// Why something was refused, by its number; 0 where nothing was.
pub(crate) fn reason(rt: &impl Print, why: Option<Reason>) -> io::Result<()> {
    number(rt, why.map_or(0, |reason| u64::from(reason.number())))
}

// The number and the item.
pub(crate) fn refusal(rt: &impl Print, why: Refusal) -> io::Result<()> {
    numbers(rt, &[u64::from(why.number), why.item as u64])
}

pub(crate) fn end(rt: &impl Print) -> io::Result<()> {
    rt.write_all(b"\n")
}
