// Whole batches, read into rows of words that the caller lends, and written from them.
#![tactic(auto)]

ghost use Rattle.std.specs.Prelude.{◌≡◌};
ghost use Rattle.item_row.specs.Row.{item_row_count};
ghost use Rattle.rows_writer.specs.Rows.{measure_rows, rows_bytes};
ghost use Rattle.log_batch.specs.Written.{BatchWritten};
ghost use Rattle.batch_rows.specs.Rows.{BatchReadInto};

use log_batch::{BodyCheck, LogBatch};
use log_item::Span;
use refusal::Refusal;

// How much a batch holds, and where its body and its block stand.
#[derive(Clone, Copy, Debug, PartialEq, Eq)]
pub struct BatchCheck {
    pub check: BodyCheck,
    pub body: Span,
    pub block: Span,
}

// A whole batch under a signature, read as LogBatch::decode does, but into lent rows: seven words to an item and three to an entry. Where too
// few are lent it is a 21. A refused batch leaves them as they were.
#[tactic(auto, using(log_batch::proofs::Frames::front_known))]
pub fn read_rows(
    buf: &[u8],
    signature: u32,
    items: &mut [u64],
    entries: &mut [u64],
) -> Result<BatchCheck, Refusal>
    ensures { BatchReadInto buf.now signature items.old entries.old result items.new entries.new }
{
    let batch = LogBatch::check_front(buf)?;
    let body = batch.body();
    let block = batch.block();
    let wanted = Some(log_batch::sealed_len(block.len));
    let bytes = &buf[batch.offset..batch.len];
    let check = rows_reader::read_body(bytes, signature, wanted, items, entries)?;
    Ok(BatchCheck { check, body, block })
}

// Writes the items of the rows as a whole batch under a signature, as LogBatch::encode does; where not `checked`, as encode_unchecked does.
// A row that is no item is refused at its turn.
pub fn write_rows(
    items: &[u64],
    entries: &[u64],
    store: &[u8],
    content: &[u8],
    signature: u32,
    checked: bool,
    out: &mut [u8],
) -> Result<usize, Refusal>
    ensures { BatchWritten (measure_rows store.now checked items.now entries.now) (item_row_count items.now) content.now (rows_bytes store.now items.now entries.now signature) out.old result out.new }
{
    let m = rows_writer::measure_rows(items, entries, store, checked);
    let len = log_batch::begin(m, items.len() / 7, content, out)?;
    if len != 0 {
        let at = len - m?.length;
        rows_writer::encode_rows(items, entries, store, signature, checked, out, at)?;
    }
    Ok(len)
}
