// Writing a body at a place of a lent buffer: item count, items, footer. Before a byte is written the measure of the body decides: its first
// refusal, or its length and entry total. From log_batch.rs, the encode of LogItemBatch.
//
// Every public function takes any rows and counts, and spans that lie anywhere. A refused body is not written at all.
#![tactic(auto)]

ghost use Rattle.std.specs.Prelude.{◌≡◌, Ok, length, map};
ghost use Rattle.list_writer.specs.Bytes.{items_of, lengths_of, body_bytes};
ghost use Rattle.list_writer.specs.Answers.{measured_of, measure_of, encoded_in, MeasuredWritten};
ghost use Rattle.list_writer.specs.Refusing.{at_item};
ghost use Rattle.list_writer.specs.Private.{row_head};
ghost use Rattle.list_writer.specs.Rows.{rows_measure, rows_bytes};
ghost use Rattle.list_writer.specs.Pieces.{head_next, head_placed, footer_next, footer_placed};

use item_row::{EntryRow, ItemRow};
use log_item::{EntryIndex, HeadSize, LogItem};
use refusal::{Reason, Refusal};

// How long a body may be, and how many bytes of it are its footer.
pub const BODY_LEN_MAX: usize = 4294967295;

const FOOTER_LEN: usize = 4;

// The length of a body, footer included, and the sum of its entry lengths.
#[derive(Clone, Copy, Debug, PartialEq, Eq)]
pub struct Measured {
    pub length: usize,
    pub total: u32,
}

// The first refusal of a body but 21, or its length and entry total: of a table's rows, as many as it says.
#[tactic(auto, using(crate::proofs::Tables::table_many, crate::proofs::Tables::table_measured))]
pub fn measure(
    items: [LogItem; 256],
    item_count: usize,
    entries: [EntryIndex; 1024],
    entry_count: usize,
    store: &[u8],
    checked: bool,
) -> Result<Measured, Refusal>
    ensures { result ≡ measure_of store.now checked (items_of items item_count) (lengths_of entries entry_count) }
{
    if 256 < item_count {
        return Err(Refusal::from(Reason::ItemsTooMany));
    }
    let rows = &entries[..entry_count.min(1024)];
    measure_list(&items[..item_count], rows, store, checked)
}

// The first refusal of a list but 21, or the length of its body and its entry total.
pub fn measure_list<I: ItemRow, E: EntryRow>(
    items: &[I],
    entries: &[E],
    store: &[u8],
    checked: bool,
) -> Result<Measured, Refusal>
    ensures { result ≡ rows_measure store.now checked (map I.spelled items.now) (map E.length entries.now) }
{
    if 256 < items.len() {
        return Err(Refusal::from(Reason::ItemsTooMany));
    }
    let mut size = codec::var_u64_len(items.len() as u64);
    let mut used: usize = 0;
    let mut total: u32 = 0;
    for (i, row) in items.iter().enumerate() {
        let head = measure_row(row, i, store, checked, used, entries.len())?;
        size += head.len;
        for entry in &entries[used..used + head.count] {
            let len = entry.entry_len();
            if u64::from(u32::MAX - total) < len {
                return Err(Refusal::new(Reason::TailTooLarge, i));
            }
            total += len as u32;
            size += codec::var_u64_len(u64::from(total));
        }
        used += head.count;
    }
    finish(size, total)
}

// The first refusal of row i but 16, or its length up to its tails and how many entry rows it uses.
fn measure_row<I: ItemRow>(
    row: &I,
    i: usize,
    store: &[u8],
    checked: bool,
    used: usize,
    rows: usize,
) -> Result<HeadSize, Refusal>
    ensures { result ≡ at_item i (row_head store.now checked used rows (I.spelled row.now)) }
{
    let head = row
        .item()
        .and_then(|item| item.measure(store, checked, used, rows));
    head.map_err(|reason| Refusal::new(reason, i))
}

// What is answered for a list of so many bytes that is not refused: 22, or its length with the footer.
#[tactic(auto, unfolding(crate::specs::Answers::measured_of))]
pub fn finish(size: usize, total: u32) -> Result<Measured, Refusal>
    ensures { result ≡ measured_of (Ok total) size }
{
    if BODY_LEN_MAX - FOOTER_LEN < size {
        return Err(Refusal::from(Reason::OutputTooLong));
    }
    Ok(Measured {
        length: size + FOOTER_LEN,
        total,
    })
}

// Writes the body of a table's rows at a place of out and answers how many bytes it has, or leaves out as it was and says why.
pub fn encode(
    items: [LogItem; 256],
    item_count: usize,
    entries: [EntryIndex; 1024],
    entry_count: usize,
    store: &[u8],
    signature: u32,
    checked: bool,
    out: &mut [u8],
    at: usize,
) -> Result<usize, Refusal>
    ensures { MeasuredWritten (measure_of store.now checked (items_of items item_count) (lengths_of entries entry_count)) (body_bytes store.now (items_of items item_count) (lengths_of entries entry_count) signature) out.old at result out.new }
{
    if 256 < item_count {
        return Err(Refusal::from(Reason::ItemsTooMany));
    }
    let rows = &entries[..entry_count.min(1024)];
    encode_list(
        &items[..item_count],
        rows,
        store,
        signature,
        checked,
        out,
        at,
    )
}

// Writes the body of a list at a place of out and answers how many bytes it has, or leaves out as it was and says why.
pub fn encode_list<I: ItemRow, E: EntryRow>(
    items: &[I],
    entries: &[E],
    store: &[u8],
    signature: u32,
    checked: bool,
    out: &mut [u8],
    at: usize,
) -> Result<usize, Refusal>
    ensures { MeasuredWritten (rows_measure store.now checked (map I.spelled items.now) (map E.length entries.now)) (rows_bytes store.now (map I.spelled items.now) (map E.length entries.now) signature) out.old at result out.new }
{
    let m = measure_list(items, entries, store, checked)?;
    let length = placing(Ok(m), out.len(), at)?;
    let mut next = codec::put_var_u64(items.len() as u64, out, at);
    let mut used: usize = 0;
    let mut total: u32 = 0;
    for row in items {
        let Ok(item) = row.item() else {
            return Ok(length);
        };
        next = write_head(item, store, out, next);
        let count = item.entries().count;
        for entry in &entries[used..used + count] {
            total += entry.entry_len() as u32;
            next = codec::put_var_u64(u64::from(total), out, next);
        }
        used += count;
    }
    write_footer(signature, out, at, next);
    Ok(length)
}

// What writing a measured body at a place among `all` bytes answers: the measure's refusal, 21, or how many bytes it has. A body of no bytes,
// which no measure gives, is not written.
pub fn placing(m: Result<Measured, Refusal>, all: usize, at: usize) -> Result<usize, Refusal>
    ensures { result ≡ encoded_in m all at }
{
    let m = m?;
    if m.length == 0 {
        return Ok(0);
    }
    if all < at || all - at < m.length {
        return Err(Refusal::from(Reason::OutputShort));
    }
    Ok(m.length)
}

// Writes an item up to its tails and answers the place after it; or the place itself, where a span lies outside the store or it does not fit.
#[tactic(auto, unfolding(crate::specs::Pieces::head_next, crate::specs::Pieces::head_placed))]
pub fn write_head(item: LogItem, store: &[u8], out: &mut [u8], at: usize) -> usize
    ensures { (result ≡ head_next store.now item (length out.old) at) × (out.new ≡ head_placed store.now item out.old at) }
{
    item.encode_head(store, out, at).unwrap_or(at)
}

// Writes the footer of what stands from `start` up to `at` behind it and answers the place after it; or `at`, where `start` lies behind it
// or four bytes do not fit.
#[tactic(auto, unfolding(crate::specs::Pieces::footer_next, crate::specs::Pieces::footer_placed, words::specs::Write::next_at))]
pub fn write_footer(signature: u32, out: &mut [u8], start: usize, at: usize) -> usize
    ensures { (result ≡ footer_next signature start at out.old) × (out.new ≡ footer_placed signature start at out.old) }
{
    if at < start || out.len() < at {
        return at;
    }
    let word = crc::crc32(&out[start..at]) ^ signature;
    codec::encode_u32_le(word, out, at).unwrap_or(at)
}
