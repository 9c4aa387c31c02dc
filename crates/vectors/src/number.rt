// Numbers, written, read back, and read in every padded form; bytes read as a number; and words.
use crate::text;
use codec::{NumberError, Piece};
use std::io;

// The shortest form, read back, then each longer form of the same number: by the functions for a number by itself.
pub(crate) fn number(rt: &impl Print, line: &[u8]) -> io::Result<()> {
    let n = line::number(line, 1);
    let mut buf = [0u8; 10];
    let len = codec::var_u64_len(n);
    codec::encode_var_u64_unrolled(n, &mut buf, 0);
    text::start(rt, b"number")?;
    text::numbers(rt, &[n, len as u64])?;
    text::hex(rt, line::front(&buf, len))?;
    text::end(rt)?;
    alone(rt, line::front(&buf, len))?;
    padded(rt, buf, len)
}

// Reads the number in the first len bytes with one byte more at a time, up to ten.
fn padded(rt: &impl Print, bytes: [u8; 10], len: usize) -> io::Result<()> {
    let mut buf = bytes;
    for n in len.max(1)..10 {
        buf[n - 1] = 128 + buf[n - 1] % 128;
        buf[n] = 0;
        alone(rt, line::front(&buf, n + 1))?;
    }
    Ok(())
}

pub(crate) fn bytes(rt: &impl Print, line: &[u8]) -> io::Result<()> {
    let mut buf = [0u8; 16];
    let n = line::bytes(line, 1, &mut buf);
    let number = line::front(&buf, n);
    read(rt, number, codec::decode_var_u64(number, 0))
}

fn alone(rt: &impl Print, bytes: &[u8]) -> io::Result<()> {
    read(rt, bytes, codec::decode_var_u64_unrolled(bytes, 0))
}

fn read(rt: &impl Print, bytes: &[u8], got: Result<Piece<u64>, NumberError>) -> io::Result<()> {
    text::start(rt, b"read")?;
    text::hex(rt, bytes)?;
    match got {
        Ok(number) => text::numbers(rt, &[number.value, number.next as u64])?,
        Err(NumberError::Eof) => text::word(rt, b"eof")?,
        Err(NumberError::Overflow) => text::word(rt, b"overflow")?,
    }
    text::end(rt)
}

// Eight bytes, the word read back from them, and what seven of them give.
pub(crate) fn big(rt: &impl Print, line: &[u8]) -> io::Result<()> {
    let mut buf = [0u8; 8];
    codec::encode_u64(line::number(line, 1), &mut buf, 0);
    text::start(rt, b"u64")?;
    text::hex(rt, &buf)?;
    word(rt, codec::decode_u64(&buf, 0))?;
    word(rt, codec::decode_u64(&buf[..7], 0))?;
    text::end(rt)
}

fn word(rt: &impl Print, got: Option<Piece<u64>>) -> io::Result<()> {
    match got {
        Some(word) => text::numbers(rt, &[word.value, word.next as u64]),
        None => text::word(rt, b"eof"),
    }
}

// The word that stands at a place of the bytes, and the bytes after another is written there.
pub(crate) fn place(rt: &impl Print, line: &[u8]) -> io::Result<()> {
    let at = line::number(line, 1) as usize;
    let mut buf = [0u8; 16];
    let n = line::bytes(line, 3, &mut buf);
    text::start(rt, b"u64 at")?;
    text::number(rt, at as u64)?;
    word(rt, codec::decode_u64(line::front(&buf, n), at))?;
    match codec::encode_u64(line::number(line, 2), &mut buf[..n], at) {
        Some(next) => text::number(rt, next as u64)?,
        None => text::word(rt, b"no-room")?,
    }
    text::bytes(rt, line::front(&buf, n))?;
    text::end(rt)
}

// Four bytes, the word read back from them, and what three of them give.
pub(crate) fn little(rt: &impl Print, line: &[u8]) -> io::Result<()> {
    let mut buf = [0u8; 4];
    codec::encode_u32_le(line::short(line, 1), &mut buf, 0);
    text::start(rt, b"u32")?;
    text::hex(rt, &buf)?;
    short(rt, codec::decode_u32_le(&buf, 0))?;
    short(rt, codec::decode_u32_le(&buf[..3], 0))?;
    text::end(rt)
}

fn short(rt: &impl Print, got: Option<Piece<u32>>) -> io::Result<()> {
    match got {
        Some(word) => text::numbers(rt, &[u64::from(word.value), word.next as u64]),
        None => text::word(rt, b"eof"),
    }
}
