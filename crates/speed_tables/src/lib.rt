// The table by value on numbers and bytes: a static library for compare/bench alone, apart from the stepping reader, as a program has it
// that uses one of the two.
//
// Each function returns 0 or a refusal's number, and sets `answer` at each call.
#![tactic(auto)]

ghost use Rattle.std.specs.Prelude.{◌≡◌};
ghost use Rattle.log_batch.specs.Body.{read_body};
ghost use Rattle.item_row.specs.Reply.{reply};
ghost use Rattle.log_batch.specs.Table.{body_table};
ghost use Rattle.speed_tables.specs.Again.{table_reply, TableAgain, WrittenAgain};

use log_batch::LogItemBatch;
use refusal::Refusal;

// A body, read into a table by value: its items, its entries, the entry total, and the place after the last item.
#[unsafe(no_mangle)]
pub extern "C" fn speed_table(body: &[u8], signature: u32, answer: &mut [u64; 4]) -> u32
    ensures { reply result answer.new ≡ table_reply (body_table body.now (read_body body.now signature)) }
{
    let t = LogItemBatch::decode(body, signature);
    *answer = [
        t.item_count as u64,
        t.entry_count as u64,
        u64::from(t.total),
        t.next as u64,
    ];
    t.refusal.map_or(0, |why| why.number)
}

// A body, read into a table by value and written from it again under the same signature: its length.
#[unsafe(no_mangle)]
pub extern "C" fn speed_write(
    body: &[u8],
    signature: u32,
    out: &mut [u8],
    answer: &mut [u64; 1],
) -> u32
    ensures { WrittenAgain (body_table body.now (read_body body.now signature)) body.now signature out.old (reply result answer.new) out.new }
{
    match write_again(body, signature, out) {
        Ok(length) => {
            *answer = [length as u64];
            0
        }
        Err(why) => {
            *answer = [0];
            why.number
        }
    }
}

// The table of a body, written as a body again: its length.
#[tactic(auto, unfolding(list_writer::specs::Answers::laid))]
fn write_again(body: &[u8], signature: u32, out: &mut [u8]) -> Result<usize, Refusal>
    ensures { TableAgain (body_table body.now (read_body body.now signature)) body.now signature out.old result out.new }
{
    let t = LogItemBatch::decode(body, signature);
    match t.refusal {
        Some(why) => Err(why),
        None => t.encode_unchecked(body, signature, out),
    }
}
