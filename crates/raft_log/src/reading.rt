// Bodies and batches, read into rows of words that the caller lends.
ghost use Rattle.std.specs.Prelude.{◌≡◌};
ghost use Rattle.log_batch.specs.Body.{read_body};
ghost use Rattle.rows_reader.specs.Lent.{RowsRead};
ghost use Rattle.batch_rows.specs.Rows.{BatchReadInto};
ghost use Rattle.item_row.specs.Reply.{reply};
ghost use Rattle.raft_log.specs.Answers.{Replied, check_reply, batch_reply};

use crate::put_check;
use batch_rows::BatchCheck;
use refusal::Refusal;

// A body, read into rows.
#[unsafe(no_mangle)]
pub extern "C" fn raft_log_read_body(
    body: &[u8],
    signature: u32,
    items: &mut [u64],
    entries: &mut [u64],
    answer: &mut [u64; 5],
) -> u32
    ensures { Replied (λ a. RowsRead (read_body body.now signature) items.old entries.old a items.new entries.new) check_reply (reply result answer.new) }
{
    let r = rows_reader::read_body(body, signature, None, items, entries);
    put_check(r, answer)
}

// A whole batch, read into rows.
#[unsafe(no_mangle)]
pub extern "C" fn raft_log_read_batch(
    data: &[u8],
    signature: u32,
    items: &mut [u64],
    entries: &mut [u64],
    answer: &mut [u64; 9],
) -> u32
    ensures { Replied (λ a. BatchReadInto «data».now signature items.old entries.old a items.new entries.new) batch_reply (reply result answer.new) }
{
    let r = batch_rows::read_rows(data, signature, items, entries);
    put_batch(r, answer)
}

fn put_batch(batch: Result<BatchCheck, Refusal>, answer: &mut [u64; 9]) -> u32
    ensures { reply result answer.new ≡ batch_reply batch }
{
    match batch {
        Ok(held) => {
            *answer = [
                0,
                held.check.items as u64,
                held.check.entries as u64,
                u64::from(held.check.total),
                held.check.next as u64,
                held.body.at as u64,
                held.body.len as u64,
                held.block.at as u64,
                held.block.len as u64,
            ];
            0
        }
        Err(why) => {
            *answer = [why.item as u64, 0, 0, 0, 0, 0, 0, 0, 0];
            why.number
        }
    }
}
