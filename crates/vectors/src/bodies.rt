// Bodies and whole batches: the table that one gives, or its refusal; what a body holds, without a table; and plain form.
use crate::{tables, text};
use log_batch::{LogBatch, LogItemBatch};
use std::io;

// A body or a whole batch, read into a table.
pub(crate) fn case(rt: &impl Print, line: &[u8]) -> io::Result<()> {
    let mut buf = [0u8; 2048];
    let signature = line::short(line, 2);
    let len = line::bytes(line, 3, &mut buf);
    let letter = line::first_letter(line);
    let n = footed(letter, signature, &mut buf, len);
    let table = read(letter, line::front(&buf, n), signature);
    tables::line(rt, line::word(line, 0), line::word(line, 1), table)
}

// The length with a footer where the letter is that of `items`, which gets one here; the other kinds have theirs.
fn footed(letter: u8, signature: u32, buf: &mut [u8], len: usize) -> usize {
    if letter == b'i' {
        list_writer::write_footer(signature, buf, 0, len)
    } else {
        len
    }
}

// The table of a whole batch where the letter is that of `whole`, else of a body.
pub(crate) fn read(letter: u8, bytes: &[u8], signature: u32) -> LogItemBatch {
    if letter == b'w' {
        LogBatch::decode(bytes, signature)
    } else {
        LogItemBatch::decode(bytes, signature)
    }
}

// Items, and then the place after the last of them.
pub(crate) fn go_over(rt: &impl Print, line: &[u8]) -> io::Result<()> {
    let mut buf = [0u8; 64];
    let n = line::bytes(line, 2, &mut buf);
    text::head(rt, line)?;
    match log_batch::check_items(line::front(&buf, n)) {
        Ok(check) => {
            text::word(rt, b"counts")?;
            text::numbers(
                rt,
                &[
                    check.items as u64,
                    check.entries as u64,
                    u64::from(check.total),
                    check.next as u64,
                ],
            )?;
        }
        Err(why) => text::refusal(rt, why)?,
    }
    text::end(rt)
}

pub(crate) fn plain(rt: &impl Print, line: &[u8]) -> io::Result<()> {
    let mut buf = [0u8; 64];
    let n = line::bytes(line, 2, &mut buf);
    text::head(rt, line)?;
    match log_batch::plain(line::front(&buf, n), 0) {
        Ok(true) => text::word(rt, b"yes")?,
        Ok(false) => text::word(rt, b"no")?,
        Err(why) => text::refusal(rt, why)?,
    }
    text::end(rt)
}
