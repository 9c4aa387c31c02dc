// Lists the items of a body without footer, which it reads from standard input: a line of sums, then a line for each command, key and
// entry; or the refusal alone. The lines wait in a buffer, which goes to standard output where it is full; `at` is the number of bytes
// that wait, and each function answers how many wait after it.
#![tactic(auto)]

ghost use Rattle.std.specs.Prelude.{◌≤◌, IfOk, length};

use log_batch::LogItemBatch;
use std::io::{self, Read};

fn main(rt: HostRuntime) -> io::Result<()> {
    let mut input = [0u8; 65_536];
    let n = read_full(&rt, &mut input)?;
    list(&rt, log_batch::read_items(&input[..n]))
}

// Reads standard input to its end, or until the buffer is full: a longer body is taken as cut there.
fn read_full(rt: &impl Input, buf: &mut [u8]) -> io::Result<usize>
    ensures { IfOk result (λ n. n ≤ length buf.new) }
{
    let mut reader = rt.reader();
    let mut n = 0;
    while n < buf.len() {
        let more = reader.read(&mut buf[n..])?;
        if more == 0 {
            break;
        }
        n += more;
    }
    Ok(n)
}

fn list(rt: &impl Print, table: LogItemBatch) -> io::Result<()> {
    let mut space = [0u8; 65_536];
    let out: &mut [u8] = &mut space;
    let end = match table.refusal {
        Some(why) => put(rt, out, 0, |out, at| {
            item_lines::refused_line(why.number, why.item, out, at)
        })?,
        None => {
            let items = table.item_count as u64;
            let entries = table.entry_count as u64;
            let bytes = u64::from(table.total);
            let start = put(rt, out, 0, |out, at| {
                item_lines::sums_line(items, entries, bytes, out, at)
            })?;
            rows(rt, table, out, start)?
        }
    };
    flush(rt, out, end)
}

// The items in order, each with the next rows as its entries. A reading never fills more rows than the table has; that neither place
// passes it is tested for the proof alone.
fn rows(rt: &impl Print, table: LogItemBatch, out: &mut [u8], start: usize) -> io::Result<usize> {
    let mut at = start;
    let mut used: usize = 0;
    for &item in &table.items[..table.item_count.min(256)] {
        at = put(rt, out, at, |out, at| item_lines::item_line(item, out, at))?;
        let first = used.min(1024);
        used = first.saturating_add(item.entries().count).min(1024);
        for &row in &table.entries[first..used] {
            let group = item.raft_group_id;
            at = put(
                rt,
                out,
                at,
                |out, at| item_lines::entry_line(group, row, out, at),
            )?;
        }
    }
    Ok(at)
}

// Puts a line behind those that wait, or, where it has no room there, at the start, once those are written.
fn put<F: Fn(&mut [u8], usize) -> Option<usize>>(
    rt: &impl Print,
    out: &mut [u8],
    at: usize,
    line: F,
) -> io::Result<usize>
    requires { F.IsAlwaysCallable line }
{
    match line(out, at) {
        Some(next) => Ok(next),
        None => {
            flush(rt, out, at)?;
            Ok(line(out, 0).unwrap_or(0))
        }
    }
}

fn flush(rt: &impl Print, out: &[u8], at: usize) -> io::Result<()> {
    rt.write_all(out.get(..at).unwrap_or(&[]))
}
