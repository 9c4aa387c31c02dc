// The lines that itemlist has for a body without footer, each put at a place of a buffer of 128 bytes and shown behind the kind and the
// name of the case; `no_room` for one that does not fit.
use crate::text;
use log_batch::LogItemBatch;
use std::io;

pub(crate) fn case(rt: &impl Print, line: &[u8]) -> io::Result<()> {
    let mut buf = [0u8; 128];
    let n = line::bytes(line, 3, &mut buf);
    let mut out = [170u8; 128];
    let at = line::number(line, 2) as usize;
    let table = log_batch::read_items(line::front(&buf, n));
    match table.refusal {
        Some(why) => {
            let wrote = item_lines::refused_line(why.number, why.item, &mut out, at);
            show(rt, line, wrote, &out, at)
        }
        None => {
            sums(rt, line, table, &mut out, at)?;
            items(rt, line, table, &mut out, at)
        }
    }
}

fn sums(
    rt: &impl Print,
    line: &[u8],
    table: LogItemBatch,
    out: &mut [u8],
    at: usize,
) -> io::Result<()> {
    let items = table.item_count as u64;
    let entries = table.entry_count as u64;
    let bytes = u64::from(table.total);
    let wrote = item_lines::sums_line(items, entries, bytes, out, at);
    show(rt, line, wrote, out, at)
}

// Each item, and its entries behind it.
fn items(
    rt: &impl Print,
    line: &[u8],
    table: LogItemBatch,
    out: &mut [u8],
    at: usize,
) -> io::Result<()> {
    let mut used: usize = 0;
    for item in &table.items[..table.item_count.min(256)] {
        let wrote = item_lines::item_line(*item, out, at);
        show(rt, line, wrote, out, at)?;
        let start = used.min(1024);
        let end = start + item.entries().count.min(1024 - start);
        for row in &table.entries[start..end] {
            let wrote = item_lines::entry_line(item.raft_group_id, *row, out, at);
            show(rt, line, wrote, out, at)?;
        }
        used = end;
    }
    Ok(())
}

// A line ends itself; nothing is shown of an item that has none.
fn show(
    rt: &impl Print,
    line: &[u8],
    wrote: Option<usize>,
    out: &[u8],
    at: usize,
) -> io::Result<()> {
    match wrote {
        Some(next) => {
            if at < next {
                text::head(rt, line)?;
                text::word(rt, line::part(out, at, next))?;
            }
            Ok(())
        }
        None => {
            text::head(rt, line)?;
            text::word(rt, b"no-room")?;
            text::end(rt)
        }
    }
}
