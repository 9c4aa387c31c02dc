// The status that an item marks.
use crate::text;
use log_batch::{AtomicGroupStatus, Mark};
use log_item::LogItem;
use refusal::Reason;
use std::io;

pub(crate) fn case(rt: &impl Print, line: &[u8]) -> io::Result<()> {
    let mut buf = [0u8; 16];
    let n = line::bytes(line, 3, &mut buf);
    let lent = line::short(line, 2) as usize;
    text::head(rt, line)?;
    match mark(line::front(&buf, n), lent) {
        Ok(Some(mark)) => {
            text::number(rt, mark.id)?;
            text::word(
                rt,
                match mark.status {
                    AtomicGroupStatus::Begin => b"begin",
                    AtomicGroupStatus::Middle => b"middle",
                    AtomicGroupStatus::End => b"end",
                },
            )?;
        }
        Ok(None) => text::word(rt, b"no-mark")?,
        Err(reason) => text::numbers(rt, &[u64::from(reason.number()), 0])?,
    }
    text::end(rt)
}

// What the item marks, with its first bytes lent.
fn mark(bytes: &[u8], lent: usize) -> Result<Option<Mark>, Reason> {
    let read = LogItem::decode(bytes, 0, 0, 0)?;
    AtomicGroupStatus::parse(read.value.item, line::front(bytes, lent))
}
