// Tables of locations, rewritten and fetched from. A line of answer is a rewrite's number, how many rows it replaced, the count, and the
// rows afterwards; or a fetch's number, place and length.
use crate::{locations, text};
use location_rules::Table;
use location_table::Rows;
use std::io;

// A table and its rows.
#[derive(Clone, Copy, Debug, PartialEq, Eq)]
struct Memtable {
    rows: Rows,
    table: Table,
}

// The calls that a line names, one after another.
pub(crate) fn case(rt: &impl Print, line: &[u8]) -> io::Result<()> {
    let words = line::words_from(line, 2);
    let mut table = table(words);
    let mut k = 3;
    while k < 32 {
        let call = line::words_from(words, k);
        match line::first_letter(call) {
            b'r' => {
                table = rewrite(rt, line, call, table)?;
                k += 4;
            }
            b'f' => {
                fetch(rt, line, call, table)?;
                k += 2;
            }
            _ => return Ok(()),
        }
    }
    Ok(())
}

fn table(words: &[u8]) -> Memtable {
    Memtable {
        rows: locations::rows(line::word(words, 2)),
        table: Table {
            first: line::number(words, 0),
            count: line::number(words, 1) as usize,
        },
    }
}

// Begins the line of a call's answer.
fn start(rt: &impl Print, line: &[u8], call: &[u8]) -> io::Result<()> {
    text::start(rt, line::word(call, 0))?;
    text::word(rt, line::word(line, 1))
}

// The table after a rewrite.
fn rewrite(rt: &impl Print, line: &[u8], call: &[u8], from: Memtable) -> io::Result<Memtable> {
    let incoming = locations::rows(line::word(call, 3));
    let first = line::number(call, 2);
    let gate = gate(line::word(call, 1));
    let Memtable { rows, table } = from;
    let left = location_table::rewrite(rows, table, incoming, first, gate);
    let done = location_rules::outcome(left.answer, table.count);
    start(rt, line, call)?;
    text::reason(rt, left.answer.err())?;
    text::numbers(rt, &[done.replaced as u64, done.count as u64])?;
    let rows = left.rows;
    locations::show(rt, &rows.all[..rows.len.min(64)])?;
    text::end(rt)?;
    Ok(Memtable {
        rows,
        table: Table {
            first: table.first,
            count: done.count,
        },
    })
}

fn gate(word: &[u8]) -> Option<u64> {
    if line::first_letter(word) == b'-' {
        None
    } else {
        Some(line::value(word))
    }
}

fn fetch(rt: &impl Print, line: &[u8], call: &[u8], from: Memtable) -> io::Result<()> {
    let gate = line::number(call, 1);
    let r = location_table::fetch_entry_indexes_before(from.rows, from.table, gate);
    let run = location_rules::found(r);
    start(rt, line, call)?;
    text::reason(rt, r.err())?;
    text::numbers(rt, &[run.place as u64, run.len as u64])?;
    text::end(rt)
}
