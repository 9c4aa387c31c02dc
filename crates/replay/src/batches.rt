// Headers, whole batches written, blocks, and status marks.
use crate::answer;
use log_batch::{AtomicGroupStatus, LogBatch, LogItemBatch};
use log_item::LogItem;
use pipe_log::{Location, LogQueue};
use refusal::Reason;

// header NAME BYTES = OFFSET LENGTH TYPE
pub(crate) fn header(line: &[u8]) -> bool {
    let mut buf = [0u8; 32];
    let n = line::bytes(line, 2, &mut buf);
    match LogBatch::decode_header(line::front(&buf, n)) {
        Ok(batch) => {
            answer::is_number(line, 4, batch.offset as u64)
                && answer::is_number(line, 5, batch.len as u64)
                && answer::is_number(line, 6, u64::from(batch.compression))
        }
        Err(reason) => answer::is_refused(line, 4, reason.number()),
    }
}

// write NAME SIGNATURE CONTENT BYTES = WRITTEN; unchecked: with any key
pub(crate) fn written(line: &[u8]) -> bool {
    let mut buf = [0u8; 512];
    let mut content = [0u8; 512];
    let m = line::bytes(line, 3, &mut content);
    let n = line::bytes(line, 4, &mut buf);
    let bytes = line::front(&buf, n);
    let table = log_batch::read_items(bytes);
    table.refusal.is_none() && encoded(line, table, bytes, line::front(&content, m))
}

fn encoded(line: &[u8], table: LogItemBatch, store: &[u8], content: &[u8]) -> bool {
    let mut out = [0u8; 1024];
    let signature = line::short(line, 2);
    let r = if line::first_letter(line) == b'w' {
        LogBatch::encode(&table, store, content, signature, &mut out)
    } else {
        LogBatch::encode_unchecked(&table, store, content, signature, &mut out)
    };
    match r {
        Ok(length) => answer::is_bytes(line, 6, line::front(&out, length)),
        Err(why) => answer::is_refused(line, 6, why.number),
    }
}

// view NAME LENGTH BLOCK = CONTENT
pub(crate) fn view(line: &[u8]) -> bool {
    let mut buf = [0u8; 512];
    let n = line::bytes(line, 3, &mut buf);
    let length = line::number(line, 2);
    let row = Location {
        queue: LogQueue::Append,
        seq: 1,
        offset: 16,
        len: length,
        entry_offset: 0,
        entry_len: line::low(log_batch::sealed_len(length as usize) as u64),
    };
    content(line, row, line::front(&buf, n), b"")
}

fn content<'a>(line: &[u8], row: Location, append: &'a [u8], rewrite: &'a [u8]) -> bool {
    let mut refused = Some(Reason::NotShortest);
    let bytes = log_batch::entry_view(row, append, rewrite, &mut refused);
    match refused {
        None => answer::is_bytes(line, 5, bytes),
        Some(reason) => answer::is_refused(line, 5, reason.number()),
    }
}

// status NAME BYTES = GROUP STATUS, or none
pub(crate) fn status(line: &[u8]) -> bool {
    let mut buf = [0u8; 64];
    let n = line::bytes(line, 2, &mut buf);
    let bytes = line::front(&buf, n);
    let Ok(read) = LogItem::decode(bytes, 0, 0, 0) else {
        return false;
    };
    match AtomicGroupStatus::parse(read.value.item, bytes) {
        Ok(Some(mark)) => {
            answer::is_number(line, 4, mark.id)
                && answer::is_number(line, 5, status_number(mark.status))
        }
        Ok(None) => answer::is_word(line, 4, b"none"),
        Err(_) => false,
    }
}

fn status_number(status: AtomicGroupStatus) -> u64 {
    match status {
        AtomicGroupStatus::Begin => 0,
        AtomicGroupStatus::Middle => 1,
        AtomicGroupStatus::End => 2,
    }
}
