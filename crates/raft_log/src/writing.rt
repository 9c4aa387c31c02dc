// Bodies and batches, written from rows of words that the caller lends.
ghost use Rattle.std.specs.Prelude.{◌≡◌};
ghost use Rattle.item_row.specs.Reply.{reply};
ghost use Rattle.item_row.specs.Row.{item_row_count};
ghost use Rattle.list_writer.specs.Answers.{MeasuredWritten};
ghost use Rattle.rows_writer.specs.Rows.{measure_rows, rows_bytes};
ghost use Rattle.log_batch.specs.Written.{BatchWritten};
ghost use Rattle.raft_log.specs.Answers.{Replied, written_reply};

use refusal::Refusal;

// Writes a body. Where `checked`, a put of an internal key is refused.
#[unsafe(no_mangle)]
pub extern "C" fn raft_log_write_body(
    items: &[u64],
    entries: &[u64],
    store: &[u8],
    signature: u32,
    checked: bool,
    out: &mut [u8],
    answer: &mut [u64; 2],
) -> u32
    ensures { Replied (λ a. MeasuredWritten (measure_rows store.now checked items.now entries.now) (rows_bytes store.now items.now entries.now signature) out.old 0 a out.new) written_reply (reply result answer.new) }
{
    let r = rows_writer::encode_rows(items, entries, store, signature, checked, out, 0);
    put_written(r, answer)
}

// The same for a whole batch.
#[unsafe(no_mangle)]
pub extern "C" fn raft_log_write_batch(
    items: &[u64],
    entries: &[u64],
    store: &[u8],
    content: &[u8],
    signature: u32,
    checked: bool,
    out: &mut [u8],
    answer: &mut [u64; 2],
) -> u32
    ensures { Replied (λ a. BatchWritten (measure_rows store.now checked items.now entries.now) (item_row_count items.now) content.now (rows_bytes store.now items.now entries.now signature) out.old a out.new) written_reply (reply result answer.new) }
{
    let r = batch_rows::write_rows(items, entries, store, content, signature, checked, out);
    put_written(r, answer)
}

// 0, or the reason's number; and the item of a refusal, and how many bytes were written.
fn put_written(written: Result<usize, Refusal>, answer: &mut [u64; 2]) -> u32
    ensures { reply result answer.new ≡ written_reply written }
{
    match written {
        Ok(length) => {
            *answer = [0, length as u64];
            0
        }
        Err(why) => {
            *answer = [why.item as u64, 0];
            why.number
        }
    }
}
