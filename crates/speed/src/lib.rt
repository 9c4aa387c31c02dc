// The check without a checksum and the stepping reader on numbers and bytes: a static library for compare/bench alone.
//
// Each function returns 0 or a refusal's number, and sets `answer` at each call.
#![tactic(auto)]

ghost use Rattle.std.specs.Prelude.{◌≡◌, List, length};
ghost use Rattle.log_batch.specs.Seal.{sealed_part};
ghost use Rattle.log_item.specs.declared.Form.TheVariants.{Any};
ghost use Rattle.log_batch.specs.Reading.{read_items};
ghost use Rattle.log_batch.specs.Body.{read_body};
ghost use Rattle.log_batch.specs.Answers.{check_of};
ghost use Rattle.item_row.specs.Reply.{reply};
ghost use Rattle.log_item.specs.declared.EntryIndex.{EntryIndex};
ghost use Rattle.item_reader.specs.Stepping.{GoesThrough};
ghost use Rattle.speed.specs.Replies.{count_reply, steps_reply};

use item_reader::{Cursor, EntryRows};

// How many items a body without its footer has.
#[unsafe(no_mangle)]
pub extern "C" fn speed_check_items(body: &[u8], answer: &mut [u64; 1]) -> u32
    ensures { reply result answer.new ≡ count_reply (check_of (read_items Any body.now)) }
{
    match log_batch::check_items(body) {
        Ok(check) => {
            *answer = [check.items as u64];
            0
        }
        Err(why) => {
            *answer = [0];
            why.number
        }
    }
}

// A body stepped through by a cursor, and each item's rows one by one: how many items and entries there are.
#[unsafe(no_mangle)]
#[tactic(auto, using(crate::proofs::Counting::at_start, crate::proofs::Counting::item_more, crate::proofs::Counting::end_counted))]
pub extern "C" fn speed_steps(body: &[u8], signature: u32, answer: &mut [u64; 2]) -> u32
    ensures { reply result answer.new ≡ steps_reply (check_of (read_body body.now signature)) }
{
    let mut cursor = Cursor::start(body, signature);
    let mut items: u64 = 0;
    let mut entries: usize = 0;
    loop {
        let step = cursor.step(body);
        match step.answer {
            Ok(Some(found)) => {
                entries += count_rows(body, found.rows);
                items += 1;
                cursor = step.cursor;
            }
            Ok(None) => {
                *answer = [items, entries as u64];
                return 0;
            }
            Err(why) => {
                *answer = [0, 0];
                return why.number;
            }
        }
    }
}

// How many rows an item has, by reading them.
#[tactic(auto, using(item_reader::proofs::Ends::row_passed, crate::proofs::Counting::one_more, crate::proofs::Counting::room, crate::proofs::Counting::none_counted, crate::proofs::Counting::all_counted))]
fn count_rows(body: &[u8], rows: EntryRows) -> usize
    ensures { (xs : List EntryIndex) → GoesThrough (sealed_part body.now) rows xs → result ≡ length xs }
{
    let mut rest = rows;
    let mut n = 0;
    while let Ok(Some(next)) = item_reader::next_row(body, rest) {
        rest = next.rest;
        n += 1;
    }
    n
}
