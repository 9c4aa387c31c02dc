// Reading a body into rows of words that the caller lends, seven to an item and three to an entry: a checking pass decides, and a filling
// pass cannot refuse. No table is made on the way.
#![tactic(auto)]

ghost use Rattle.std.specs.Prelude.{◌≡◌, length};
ghost use Rattle.log_item.specs.declared.Form.TheVariants.{Any};
ghost use Rattle.item_row.specs.Row.{item_words, entry_words};
ghost use Rattle.log_batch.specs.Reading.{read_items};
ghost use Rattle.log_batch.specs.Total.{agreeing};
ghost use Rattle.log_batch.specs.Body.{read_body};
ghost use Rattle.rows_reader.specs.Lent.{Filled, RowsRead};
ghost use Rattle.rows_reader.specs.Private.{Fits};

use log_batch::{BodyCheck, LogBatch};
use log_item::{EntryIndex, EntryIndexes, LogItem};
use refusal::{Reason, Refusal};

// What a body with its footer holds, under a signature, where it comes to the entry total that is wanted (else 20) and all its rows fit in
// those that are lent (else 21).
#[tactic(auto, unfolding(log_batch::specs::Body::read_body, log_batch::specs::Seal::seal_check))]
pub fn read_body(
    body: &[u8],
    signature: u32,
    wanted: Option<usize>,
    items: &mut [u64],
    entries: &mut [u64],
) -> Result<BodyCheck, Refusal>
    ensures { RowsRead (agreeing wanted (read_body body.now signature)) items.old entries.old result items.new entries.new }
{
    log_batch::check_seal(body, signature)?;
    let n = body.len() - LogBatch::CHECKSUM_LEN;
    read_items(&body[..n], wanted, items, entries)
}

// The same of a body without its footer.
#[tactic(auto, using(crate::proofs::Reading::fits))]
fn read_items(
    buf: &[u8],
    wanted: Option<usize>,
    items: &mut [u64],
    entries: &mut [u64],
) -> Result<BodyCheck, Refusal>
    ensures { RowsRead (agreeing wanted (read_items Any buf.now)) items.old entries.old result items.new entries.new }
{
    let check = log_batch::check_items(buf)?;
    if wanted.is_some_and(|total| total != check.total as usize) {
        return Err(Refusal::from(Reason::BlockDiffers));
    }
    if items.len() / 7 < check.items || entries.len() / 3 < check.entries {
        return Err(Refusal::from(Reason::OutputShort));
    }
    fill(buf, items, entries);
    Ok(check)
}

// Stores the rows of an accepted body where they fit.
fn fill(buf: &[u8], items: &mut [u64], entries: &mut [u64])
    requires { Fits buf.now items.old entries.old }
    ensures { Filled (read_items Any buf.now) items.old entries.old items.new entries.new }
{
    let Ok(count) = log_item::read_number(buf, 0) else {
        return;
    };
    let mut at = count.next;
    let mut total: u32 = 0;
    let mut j: usize = 0;
    for i in 0..count.value as usize {
        let Ok(head) = LogItem::decode_head(buf, at, j) else {
            return;
        };
        let item = head.value;
        put_item(item, &mut items[i * 7..i * 7 + 7]);
        at = head.next;
        let listed = item.entries();
        let mut index = listed.first_index;
        for _ in 0..listed.count {
            let Ok(tail) = EntryIndexes::decode_tail(buf, at, total) else {
                return;
            };
            let row = EntryIndex {
                index,
                entry_offset: total,
                entry_len: tail.value - total,
            };
            put_entry(row, &mut entries[j * 3..j * 3 + 3]);
            j += 1;
            at = tail.next;
            total = tail.value;
            index = index.wrapping_add(1);
        }
    }
}

// Stores the row of an item.
fn put_item(item: LogItem, row: &mut [u64])
    requires { length row.old ≡ 7 }
    ensures { row.new ≡ item_words item }
{
    if let Some(row) = row.as_mut_array::<7>() {
        item_row::store_words(item, row);
    }
}

// Stores the row of an entry, in one assignment: copying a slice takes ten instructions more, for its words go through memory.
fn put_entry(entry: EntryIndex, row: &mut [u64])
    requires { length row.old ≡ 3 }
    ensures { row.new ≡ entry_words entry }
{
    if let Some(row) = row.as_mut_array::<3>() {
        *row = item_row::entry_words_of(entry);
    }
}
