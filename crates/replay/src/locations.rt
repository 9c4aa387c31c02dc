// Locations: rewriting, and the fetch before a gate. Tables are of at most 64 rows, six words each.
use crate::items;
use location_rules::Table;
use location_table::{Rows, fetch_entry_indexes_before, rewrite};
use pipe_log::{Location, LogQueue};

const BLANK: Location = Location {
    queue: LogQueue::Append,
    seq: 0,
    offset: 0,
    len: 0,
    entry_offset: 0,
    entry_len: 0,
};

// move NAME FIRST COUNT ROWS WITH GATE INFIRST ROWS = COUNT ROWS APPEND REWRITE
pub(crate) fn moved(line: &[u8]) -> bool {
    let len = line::short(line, 4) as usize;
    let rows = table_rows(line, 5, len);
    let k = past(5, len);
    let many = line::short(line, on(k, 3)) as usize;
    let incoming = table_rows(line, on(k, 4), many);
    let first = line::number(line, on(k, 2));
    let gate = gate_at(line, k);
    let table = table_at(line);
    let left = rewrite(rows, table, incoming, first, gate);
    let Ok(r) = left.answer else {
        return false;
    };
    let start = on(past(on(k, 4), many), 1);
    rows_agree(line, start, r.count as u64, left.rows)
}

// take NAME FIRST COUNT ROWS GATE = PLACE LENGTH
pub(crate) fn taken(line: &[u8]) -> bool {
    let len = line::short(line, 4) as usize;
    let k = past(5, len);
    let r = fetch_entry_indexes_before(
        table_rows(line, 5, len),
        table_at(line),
        line::number(line, k),
    );
    let Ok(run) = r else {
        return false;
    };
    let a = items::number(line, on(k, 2), run.place as u64);
    0 < items::number(line, a, run.len as u64)
}

fn table_at(line: &[u8]) -> Table {
    Table {
        first: line::number(line, 2),
        count: line::short(line, 3) as usize,
    }
}

fn gate_at(line: &[u8], k: usize) -> Option<u64> {
    if line::number(line, k) == 0 {
        None
    } else {
        Some(line::number(line, on(k, 1)))
    }
}

// The word d words on; 0 where that would be too many.
fn on(k: usize, d: usize) -> usize {
    if 1000 < k.max(d) { 0 } else { k + d }
}

// The word after so many rows.
fn past(k: usize, rows: usize) -> usize {
    if 64 < rows { 0 } else { on(k, 6 * rows) }
}

// The rows from a word on; those that are not there are blank.
fn table_rows(line: &[u8], k: usize, count: usize) -> Rows {
    let mut all = [BLANK; 64];
    for i in 0..count.min(64) {
        all[i] = row(line, past(k, i));
    }
    Rows { all, len: count }
}

fn row(line: &[u8], k: usize) -> Location {
    let queue = if line::number(line, k) == 0 {
        LogQueue::Append
    } else {
        LogQueue::Rewrite
    };
    Location {
        queue,
        seq: line::number(line, on(k, 1)),
        offset: line::number(line, on(k, 2)),
        len: line::number(line, on(k, 3)),
        entry_offset: line::short(line, on(k, 4)),
        entry_len: line::short(line, on(k, 5)),
    }
}

// The rewritten count, the rows, and how many of them are in each queue.
fn rows_agree(line: &[u8], k: usize, count: u64, rows: Rows) -> bool {
    let a = items::number(line, k, count);
    let b = items::number(line, a, rows.len as u64);
    let used = &rows.all[..rows.len.min(64)];
    let c = rows_words(line, b, used);
    let append = in_append(used);
    let Some(rewrite) = rows.len.checked_sub(append) else {
        return false;
    };
    let d = items::number(line, c, append as u64);
    0 < items::number(line, d, rewrite as u64)
}

fn rows_words(line: &[u8], k: usize, rows: &[Location]) -> usize {
    let mut word = k;
    for &row in rows {
        word = row_words(line, word, row);
    }
    word
}

fn row_words(line: &[u8], k: usize, row: Location) -> usize {
    let a = items::number(line, k, queue_number(row));
    let b = items::number(line, a, row.seq);
    let c = items::number(line, b, row.offset);
    let d = items::number(line, c, row.len);
    let e = items::number(line, d, u64::from(row.entry_offset));
    items::number(line, e, u64::from(row.entry_len))
}

fn queue_number(row: Location) -> u64 {
    match row.queue {
        LogQueue::Append => 0,
        LogQueue::Rewrite => 1,
    }
}

// How many of the rows are in the append queue.
fn in_append(rows: &[Location]) -> usize {
    rows.iter().filter(|row| queue_number(**row) == 0).count()
}
