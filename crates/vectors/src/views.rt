// The bytes of an entry, as a part of the block that its row's queue names: the refusal's number or 0, the part's length, and the part.
use crate::{locations, text};
use pipe_log::Location;
use refusal::Reason;
use std::io;

pub(crate) fn case(rt: &impl Print, line: &[u8]) -> io::Result<()> {
    let mut append = [0u8; 32];
    let mut rewrite = [0u8; 32];
    let m = line::bytes(line, 6, &mut append);
    let n = line::bytes(line, 7, &mut rewrite);
    text::head(rt, line)?;
    view(
        rt,
        row(line),
        line::front(&append, m),
        line::front(&rewrite, n),
    )?;
    text::end(rt)
}

fn row(line: &[u8]) -> Location {
    Location {
        queue: locations::queue(line::number(line, 2) != 0),
        seq: 1,
        offset: 16,
        len: line::number(line, 3),
        entry_offset: line::short(line, 4),
        entry_len: line::short(line, 5),
    }
}

fn view<'a>(rt: &impl Print, row: Location, append: &'a [u8], rewrite: &'a [u8]) -> io::Result<()> {
    let mut refused = Some(Reason::NotShortest);
    let bytes = log_batch::entry_view(row, append, rewrite, &mut refused);
    text::reason(rt, refused)?;
    text::number(rt, bytes.len() as u64)?;
    if bytes.is_empty() {
        Ok(())
    } else {
        text::hex(rt, bytes)
    }
}
