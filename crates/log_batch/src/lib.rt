// Bodies and whole batches, read and written: their types, and a batch's header, block and body. From log_batch.rs, LogItemBatch to
// AtomicGroupStatus.
#![tactic(auto)]

mod body;
mod front;
mod seal;
mod status;
mod table;
mod view;

ghost use Rattle.std.specs.Prelude.{◌≡◌, ◌-◌, true, false};
ghost use Rattle.log_batch.specs.Header.{frame, header, header_got};
ghost use Rattle.log_batch.specs.Batch.{front_batch, read_batch};
ghost use Rattle.log_batch.specs.Written.{TableWritten};

pub use body::{check, check_items, plain};
pub use front::begin;
use log_item::{EntryIndex, LogItem, Span};
use refusal::{Reason, Refusal};
use seal::check_block;
pub use seal::{check_seal, sealed_len};
pub use table::read_items;
pub use view::{check_entry, entry_view};

// What a body holds: the first item_count rows of items and entry_count rows of entries; rows past them are blank. Keys and contents
// are spans of the body. A refused reading has no rows.
#[derive(Clone, Copy, Debug, PartialEq, Eq)]
pub struct LogItemBatch {
    pub items: [LogItem; 256],
    pub item_count: usize,
    pub entries: [EntryIndex; 1024],
    pub entry_count: usize,
    // the sum of all entry lengths, and the place after the last item, in the body
    pub total: u32,
    pub next: usize,
    // where body and block stand in the bytes that were read; 0 0 where there is none
    pub body: Span,
    pub block: Span,
    pub refusal: Option<Refusal>,
}

// How much a body holds, with no table: numbers of items and entries, the entry total and the place after the last item.
#[derive(Clone, Copy, Debug, PartialEq, Eq)]
pub struct BodyCheck {
    pub items: usize,
    pub entries: usize,
    pub total: u32,
    pub next: usize,
}

// What a mark says of its group of batches.
#[derive(Clone, Copy, Debug, PartialEq, Eq)]
pub enum AtomicGroupStatus {
    Begin,
    Middle,
    End,
}

// The status that an item marks, and the group's number.
#[derive(Clone, Copy, Debug, PartialEq, Eq)]
pub struct Mark {
    pub id: u64,
    pub status: AtomicGroupStatus,
}

// The frame of a batch, as its header states it.
#[derive(Clone, Copy, Debug, PartialEq, Eq)]
pub struct LogBatch {
    // where the body starts
    pub offset: usize,
    // the length of the whole batch
    pub len: usize,
    // 0: none, 1: compressed
    pub compression: u8,
}

impl LogBatch {
    pub const HEADER_LEN: usize = 16;

    pub const CHECKSUM_LEN: usize = 4;

    // The frame of these numbers.
    fn new(offset: usize, len: usize, compression: u8) -> LogBatch
        ensures { result ≡ record { offset = offset; len = len; compression = compression } }
    {
        LogBatch {
            offset,
            len,
            compression,
        }
    }

    // The frame that the first 16 bytes state.
    #[tactic(auto, unfolding(crate::specs::Header::header, words::specs::Word::read_u64))]
    pub fn decode_header(buf: &[u8]) -> Result<LogBatch, Reason>
        ensures { header_got result ≡ header buf.now 0 }
    {
        let first = codec::decode_u64(buf, 0).ok_or(Reason::HeaderShort)?;
        let second = codec::decode_u64(buf, first.next).ok_or(Reason::HeaderShort)?;
        read_frame(first.value, second.value)
    }

    // The frame of a batch whose header, length, compression type and block are right.
    #[tactic(auto, unfolding(crate::specs::Batch::front_batch), using(crate::proofs::Frames::header_known))]
    pub fn check_front(buf: &[u8]) -> Result<LogBatch, Reason>
        ensures { header_got result ≡ front_batch buf.now 0 }
    {
        let batch = LogBatch::decode_header(buf)?;
        let offset = batch.offset;
        if buf.len() < batch.len {
            return Err(Reason::BatchShort);
        }
        if batch.compression != 0 {
            return Err(Reason::Compressed);
        }
        check_block(&buf[LogBatch::HEADER_LEN..offset])?;
        Ok(batch)
    }

    // Where its body stands, from the offset to the length.
    pub fn body(self) -> Span
        ensures { result ≡ record { at = self.offset; len = self.len - self.offset } }
    {
        Span {
            at: self.offset,
            len: self.len.saturating_sub(self.offset),
        }
    }

    // Where its block stands, from the end of the header to the offset.
    pub fn block(self) -> Span
        ensures { result ≡ record { at = 16; len = self.offset - 16 } }
    {
        Span {
            at: LogBatch::HEADER_LEN,
            len: self.offset.saturating_sub(LogBatch::HEADER_LEN),
        }
    }

    // A whole batch under a signature. Bytes past its length are not looked at; spans are in the body.
    pub fn decode(buf: &[u8], signature: u32) -> LogItemBatch
        ensures { result ≡ read_batch buf.now signature }
    {
        let batch = match LogBatch::check_front(buf) {
            Ok(batch) => batch,
            Err(reason) => return LogItemBatch::empty(Some(Refusal::from(reason))),
        };
        let body = batch.body();
        let block = batch.block();
        let mut t = LogItemBatch::decode(&buf[batch.offset..batch.len], signature);
        if t.refusal.is_some() {
            return t;
        }
        if t.total as usize != sealed_len(block.len) {
            return LogItemBatch::empty(Some(Refusal::from(Reason::BlockDiffers)));
        }
        t.body = body;
        t.block = block;
        t
    }

    // Writes the table's items as a whole batch under a signature, from the start of out on, or leaves out as it was and says why; the answer is
    // how many bytes were written. Of the table only the items and the lengths of the entry rows count; `store` has the bytes that the items'
    // spans lie in, `content` is the block's. No items and no content: nothing is written, and the answer is 0. A put whose key begins with the
    // internal prefix is refused with 23.
    pub fn encode(
        table: &LogItemBatch,
        store: &[u8],
        content: &[u8],
        signature: u32,
        out: &mut [u8],
    ) -> Result<usize, Refusal>
        ensures { TableWritten true table.now store.now content.now signature out.old result out.new }
    {
        encode_batch(table, store, content, signature, true, out)
    }

    // The same with any key.
    pub fn encode_unchecked(
        table: &LogItemBatch,
        store: &[u8],
        content: &[u8],
        signature: u32,
        out: &mut [u8],
    ) -> Result<usize, Refusal>
        ensures { TableWritten false table.now store.now content.now signature out.old result out.new }
    {
        encode_batch(table, store, content, signature, false, out)
    }
}

// The same where keys are looked at, or not.
fn encode_batch(
    table: &LogItemBatch,
    store: &[u8],
    content: &[u8],
    signature: u32,
    checked: bool,
    out: &mut [u8],
) -> Result<usize, Refusal>
    ensures { TableWritten checked table.now store.now content.now signature out.old result out.new }
{
    let items = table.items;
    let count = table.item_count;
    let entries = table.entries;
    let rows = table.entry_count;
    let m = list_writer::measure(items, count, entries, rows, store, checked);
    let len = begin(m, count, content, out)?;
    if len != 0 {
        let at = len - m?.length;
        list_writer::encode(
            items, count, entries, rows, store, signature, checked, out, at,
        )?;
    }
    Ok(len)
}

// What the two words of a header state.
#[tactic(auto, unfolding(crate::specs::Header::frame))]
fn read_frame(first: u64, second: u64) -> Result<LogBatch, Reason>
    ensures { header_got result ≡ frame first second 0 }
{
    let compression = (first % 256) as u8;
    let len = (first / 256) as usize;
    let offset = second as usize;
    if 1 < compression {
        return Err(Reason::CompressionUnknown);
    }
    if len < offset {
        return Err(Reason::OffsetAboveLength);
    }
    if offset < LogBatch::HEADER_LEN {
        return Err(Reason::OffsetBelowHeader);
    }
    Ok(LogBatch::new(offset, len, compression))
}
