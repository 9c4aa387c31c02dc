// Tables written as bodies and as whole batches: the answer, what was written and what stands behind it in the buffer lent, and the bytes
// read back. A table comes from a body, and may be edited to one that no reading gives. `words` is what a line has after the name.
use crate::{bodies, edits, tables, text};
use log_batch::{LogBatch, LogItemBatch};
use refusal::Refusal;
use std::io;

pub(crate) fn case(rt: &impl Print, line: &[u8]) -> io::Result<()> {
    let mut body = [0u8; 2048];
    let mut content = [0u8; 64];
    let mut out = [170u8; 2048];
    let words = line::words_from(line, 2);
    let room = line::number(words, 4) as usize;
    let m = line::bytes(words, 5, &mut content);
    let n = line::bytes(words, 6, &mut body);
    let r = write(
        words,
        line::front(&body, n),
        line::front(&content, m),
        &mut out,
        room,
    );
    answer(rt, line, r, line::front(&out, room))?;
    back(rt, line, words, line::front(&out, r.unwrap_or(0)))
}

// Writes the table of a body, edited, into the first `room` bytes of out, or into all where there are fewer.
fn write(
    words: &[u8],
    body: &[u8],
    content: &[u8],
    out: &mut [u8],
    room: usize,
) -> Result<usize, Refusal> {
    let table = edits::edited(words, log_batch::read_items(body));
    let end = room.min(out.len());
    encode(words, table, body, content, &mut out[..end])
}

fn encode(
    words: &[u8],
    table: LogItemBatch,
    store: &[u8],
    content: &[u8],
    out: &mut [u8],
) -> Result<usize, Refusal> {
    let signature = line::short(words, 2);
    let whole = line::first_letter(line::word(words, 0)) == b'w';
    let checked = line::first_letter(line::word(words, 1)) == b'c';
    match (whole, checked) {
        (true, true) => LogBatch::encode(&table, store, content, signature, out),
        (true, false) => LogBatch::encode_unchecked(&table, store, content, signature, out),
        (false, true) => table.encode(store, signature, out),
        (false, false) => table.encode_unchecked(store, signature, out),
    }
}

// Number, item and length, the bytes written, and the rest of the buffer.
fn answer(rt: &impl Print, line: &[u8], r: Result<usize, Refusal>, out: &[u8]) -> io::Result<()> {
    text::head(rt, line)?;
    let length = match r {
        Ok(length) => {
            text::numbers(rt, &[0, 0])?;
            length
        }
        Err(why) => {
            text::refusal(rt, why)?;
            0
        }
    };
    text::number(rt, length as u64)?;
    text::bytes(rt, line::front(out, length))?;
    text::bytes(rt, line::part(out, length, out.len()))?;
    text::end(rt)
}

// What was written, where anything was, read under the second signature.
fn back(rt: &impl Print, line: &[u8], words: &[u8], bytes: &[u8]) -> io::Result<()> {
    if bytes.is_empty() {
        return Ok(());
    }
    let table = bodies::read(
        line::first_letter(line::word(words, 0)),
        bytes,
        line::short(words, 3),
    );
    tables::line(rt, b"back", line::word(line, 1), table)
}
