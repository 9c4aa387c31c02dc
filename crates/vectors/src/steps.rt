// Bodies stepped through, an item at a time and its rows one at a time. The line has what each call answers: an item, its rows, and `.`
// where they end; the end; or the refusal.
use crate::{tables, text};
use item_reader::{Cursor, EntryRows, Found};
use refusal::Refusal;
use std::io;

// By steps of a cursor, and then what a reader answers a third of the way.
pub(crate) fn case(rt: &impl Print, line: &[u8]) -> io::Result<()> {
    let mut buf = [0u8; 2048];
    let n = line::bytes(line, 4, &mut buf);
    let signature = line::short(line, 2);
    let count = line::number(line, 3) as usize;
    text::head(rt, line)?;
    let first = Cursor::start(line::front(&buf, n), signature);
    steps(rt, line::front(&buf, n), first, count)?;
    text::end(rt)?;
    text::start(rt, b"nth")?;
    text::word(rt, line::word(line, 1))?;
    let body = line::front(&buf, n);
    answer(rt, body, item_reader::nth(body, signature, count / 3))?;
    text::end(rt)
}

// What so many steps answer, and the cursor after them.
fn steps(rt: &impl Print, body: &[u8], first: Cursor, count: usize) -> io::Result<Cursor> {
    let mut cursor = first;
    for _ in 0..count {
        let s = cursor.step(body);
        answer(rt, body, s.answer)?;
        cursor = s.cursor;
    }
    Ok(cursor)
}

fn answer(rt: &impl Print, body: &[u8], got: Result<Option<Found>, Refusal>) -> io::Result<()> {
    match got {
        Ok(Some(found)) => {
            let item = found.item;
            tables::item(rt, item)?;
            entry_rows(rt, body, found.rows, item.entries().count)
        }
        Ok(None) => text::word(rt, b"end"),
        Err(why) => {
            text::word(rt, b"refused")?;
            text::refusal(rt, why)
        }
    }
}

// The rows of an item, and the end after them.
fn entry_rows(rt: &impl Print, body: &[u8], rows: EntryRows, count: usize) -> io::Result<()> {
    let mut rest = rows;
    for _ in 0..count {
        rest = entry(rt, body, rest)?;
    }
    entry(rt, body, rest)?;
    Ok(())
}

// The next row, and the rows after it.
fn entry(rt: &impl Print, body: &[u8], rows: EntryRows) -> io::Result<EntryRows> {
    match item_reader::next_row(body, rows) {
        Ok(Some(next)) => {
            tables::entry(rt, next.row)?;
            Ok(next.rest)
        }
        Ok(None) => {
            text::word(rt, b".")?;
            Ok(rows)
        }
        Err(reason) => {
            text::word(rt, b"refused")?;
            text::number(rt, u64::from(reason.number()))?;
            Ok(rows)
        }
    }
}

// A cursor made of its numbers, stepped so many times; and where it then stands.
pub(crate) fn jump(rt: &impl Print, line: &[u8]) -> io::Result<()> {
    let mut buf = [0u8; 64];
    let n = line::bytes(line, 8, &mut buf);
    let from = Cursor {
        at: line::number(line, 2) as usize,
        total: line::short(line, 3),
        used: line::number(line, 4) as usize,
        item: line::number(line, 5) as usize,
        count: line::number(line, 6) as usize,
        refusal: None,
    };
    text::head(rt, line)?;
    let calls = line::number(line, 7) as usize;
    let after = steps(rt, line::front(&buf, n), from, calls)?;
    let place = [
        after.at as u64,
        u64::from(after.total),
        after.used as u64,
        after.item as u64,
    ];
    text::numbers(rt, &place)?;
    text::end(rt)
}

// The first item of a body, and its rows read in another.
pub(crate) fn tail(rt: &impl Print, line: &[u8]) -> io::Result<()> {
    let mut buf = [0u8; 64];
    let mut other = [0u8; 64];
    let n = line::bytes(line, 2, &mut buf);
    let m = line::bytes(line, 3, &mut other);
    text::head(rt, line)?;
    let body = line::front(&buf, n);
    let first = Cursor::start(body, 0).step(body);
    answer(rt, line::front(&other, m), first.answer)?;
    text::end(rt)
}
