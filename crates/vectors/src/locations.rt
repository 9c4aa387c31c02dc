// Rows of locations, as a word spells them and as a line shows them. A row is QUEUE,FILE,PLACE,BLOCKLENGTH,OFFSET,LENGTH: its queue is A
// or R, the rest is in hex, and what is left out at the end is 0. Rows are joined by semicolons, and `-` is none.
use crate::text;
use location_table::Rows;
use pipe_log::{Location, LogQueue};
use std::io;

// At most 64 rows.
pub(crate) fn rows(word: &[u8]) -> Rows {
    let mut rows = Rows {
        all: [row(b"A"); 64],
        len: 0,
    };
    let mut at = 0;
    if line::first_letter(word) == b'-' {
        return rows;
    }
    for i in 0..64 {
        let end = line::find(word, at, b';');
        rows.all[i] = row(line::part(word, at, end));
        rows.len = i + 1;
        if word.len() <= end {
            return rows;
        }
        at = end + 1;
    }
    rows
}

fn row(word: &[u8]) -> Location {
    let [_, seq, offset, len, entry_offset, entry_len] = numbers(word);
    Location {
        queue: queue(line::first_letter(word) == b'R'),
        seq,
        offset,
        len,
        entry_offset: line::low(entry_offset),
        entry_len: line::low(entry_len),
    }
}

pub(crate) fn queue(is_rewrite: bool) -> LogQueue {
    if is_rewrite {
        LogQueue::Rewrite
    } else {
        LogQueue::Append
    }
}

// The numbers between commas, up to six; 0 where there are fewer.
fn numbers(word: &[u8]) -> [u64; 6] {
    let mut out = [0u64; 6];
    let mut at = 0;
    for k in 0..6 {
        let end = line::find(word, at, b',');
        out[k] = line::value(line::part(word, at, end));
        if word.len() <= end {
            return out;
        }
        at = end + 1;
    }
    out
}

// The words of the rows.
pub(crate) fn show(rt: &impl Print, rows: &[Location]) -> io::Result<()> {
    for &row in rows {
        text::word(rt, b":")?;
        text::word(
            rt,
            match row.queue {
                LogQueue::Append => b"A",
                LogQueue::Rewrite => b"R",
            },
        )?;
        text::numbers(
            rt,
            &[
                row.seq,
                row.offset,
                row.len,
                u64::from(row.entry_offset),
                u64::from(row.entry_len),
            ],
        )?;
    }
    Ok(())
}
