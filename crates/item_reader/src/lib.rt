// A reader that steps through one lent body and hands out an item at a time, with no table. It holds the body and a cursor: the place and
// the entry total before the next item.
//
// Opening does the whole reading; then `next` hands out the same items in the same order and an end, or none and the same refusal. The
// rows of an item of entries are read in the same way, one at a time, by `next_row`. Whoever has the body beside it goes by a cursor alone,
// which steps by value.
#![tactic(auto)]

ghost use Rattle.std.specs.Prelude.{◌≡◌};
ghost use Rattle.log_batch.specs.Seal.{sealed_part};
ghost use Rattle.item_reader.specs.Rows.{next_row};
ghost use Rattle.item_reader.specs.Steps.{found_at, stepped};
ghost use Rattle.item_reader.specs.Cursor.{after_count, started};
ghost use Rattle.item_reader.specs.Reader.{opened, step_from, after_call, nth_of};

use log_batch::sealed_len;
use log_item::{EntryIndex, EntryIndexes, LogItem};
use refusal::{Reason, Refusal};

// Where the rows of an item stand that are still to be read: the place of the next tail, the total before it, the index of its entry,
// and how many there are. No caller sees them, since where none is left the index is the one after the last, which is never shown.
#[derive(Clone, Copy, Debug, PartialEq, Eq)]
pub struct EntryRows {
    at: usize,
    total: u32,
    index: u64,
    left: usize,
}

// A row, and the rows after it.
#[derive(Clone, Copy, Debug, PartialEq, Eq)]
pub struct NextRow {
    pub row: EntryIndex,
    pub rest: EntryRows,
}

// An item, and where its rows stand.
#[derive(Clone, Copy, Debug, PartialEq, Eq)]
pub struct Found {
    pub item: LogItem,
    pub rows: EntryRows,
}

// A place to step from in a body that is lent at each step. One that was started on a body stands at an item of it or at its end, or has
// its refusal.
#[derive(Clone, Copy, Debug, PartialEq, Eq)]
pub struct Cursor {
    // the place of the next item, and the total and the number of entries before it
    pub at: usize,
    pub total: u32,
    pub used: usize,
    // the number of the next item, and how many there are
    pub item: usize,
    pub count: usize,
    // why the body is refused
    pub refusal: Option<Refusal>,
}

// Where a cursor stands after a step, and what the step answers: an item, or none where none is left, or the body's refusal.
#[derive(Clone, Copy, Debug, PartialEq, Eq)]
pub struct Stepped {
    pub cursor: Cursor,
    pub answer: Result<Option<Found>, Refusal>,
}

// A reader of the body that it was opened on.
#[derive(Clone, Copy, Debug, PartialEq, Eq)]
pub struct ItemReader<'a> {
    pub body: &'a [u8],
    pub cursor: Cursor,
}

impl Cursor {
    // A cursor at the first item of a body, which is read whole under the signature. It is always handed back: where the body is refused,
    // so is each step.
    #[tactic(auto, unfolding(crate::specs::Cursor::started))]
    pub fn start(body: &[u8], signature: u32) -> Cursor
        ensures { result ≡ started body.now signature }
    {
        match log_batch::check(body, signature) {
            Ok(check) => {
                let n = sealed_len(body.len());
                Cursor {
                    at: after_count(&body[..n]),
                    total: 0,
                    used: 0,
                    item: 0,
                    count: check.items,
                    refusal: None,
                }
            }
            Err(why) => Cursor {
                at: 0,
                total: 0,
                used: 0,
                item: 0,
                count: 0,
                refusal: Some(why),
            },
        }
    }

    // The next item, the end, or the body's refusal, and the cursor after it; after the end the end again. The body is the one that the
    // cursor was started on; in another the answer is what stands there: an item, or why it is refused.
    #[tactic(auto, unfolding(crate::specs::Steps::stepped))]
    pub fn step(self, body: &[u8]) -> Stepped
        ensures { result ≡ stepped body.now self }
    {
        if let Some(why) = self.refusal {
            return self.stay(Err(why));
        }
        if self.count <= self.item {
            return self.stay(Ok(None));
        }
        let n = sealed_len(body.len());
        match LogItem::decode(&body[..n], self.at, self.total, self.used) {
            Ok(piece) => {
                let read = piece.value;
                let found = Found::new(read.item, read.tails, self.total);
                Stepped {
                    cursor: Cursor {
                        at: piece.next,
                        total: read.total,
                        used: read.used,
                        item: self.item + 1,
                        ..self
                    },
                    answer: Ok(Some(found)),
                }
            }
            Err(reason) => self.stay(Err(Refusal::new(reason, self.item))),
        }
    }

    // A step that leaves the cursor where it is.
    fn stay(self, answer: Result<Option<Found>, Refusal>) -> Stepped
        ensures { result ≡ record { cursor = self; answer = answer } }
    {
        Stepped {
            cursor: self,
            answer,
        }
    }
}

impl Found {
    // An item whose tails begin at a place, with the total before them.
    fn new(item: LogItem, tails: usize, total: u32) -> Found
        ensures { result ≡ found_at item tails total }
    {
        let entries = item.entries();
        Found {
            item,
            rows: EntryRows {
                at: tails,
                total,
                index: entries.first_index,
                left: entries.count,
            },
        }
    }
}

impl<'a> ItemReader<'a> {
    // A reader of a body under a signature. It is always handed back: where the body is refused, so is each step.
    pub fn open(body: &'a [u8], signature: u32) -> ItemReader<'a>
        ensures { result ≡ opened body.entry signature }
    {
        let cursor = Cursor::start(body, signature);
        ItemReader { body, cursor }
    }

    // The next item, none where none is left, or the body's refusal; after the end the end again.
    pub fn next(&mut self) -> Result<Option<Found>, Refusal>
        ensures { (result ≡ (step_from self.old).answer) × (self.new ≡ after_call self.old) }
    {
        let step = self.cursor.step(self.body);
        self.cursor = step.cursor;
        step.answer
    }
}

// What call number k of `next`, counted from 0, answers on a reader opened on the body under the signature. It is for tests: each call
// opens the body and reads it whole. Whoever goes through a body has a reader or a cursor.
#[tactic(auto, unfolding(crate::specs::Reader::after_calls))]
pub fn nth(body: &[u8], signature: u32, k: usize) -> Result<Option<Found>, Refusal>
    ensures { result ≡ nth_of (opened body.entry signature) k }
{
    let mut reader = ItemReader::open(body, signature);
    for _i in 0..k {
        let _ = reader.next();
    }
    reader.next()
}

// The next of an item's rows, in the body that the item was read from, footer included: first with the rows that came with the item,
// then with the rest that comes with each row. None where none is left, or why its tail is refused.
#[tactic(auto, unfolding(crate::specs::Rows::next_row), using(log_item::proofs::Known::tail_known))]
pub fn next_row(body: &[u8], rows: EntryRows) -> Result<Option<NextRow>, Reason>
    ensures { result ≡ next_row (sealed_part body.now) rows }
{
    if rows.left == 0 {
        return Ok(None);
    }
    let n = sealed_len(body.len());
    let tail = EntryIndexes::decode_tail(&body[..n], rows.at, rows.total)?;
    Ok(Some(NextRow {
        row: EntryIndex {
            index: rows.index,
            entry_offset: rows.total,
            entry_len: tail.value - rows.total,
        },
        rest: EntryRows {
            at: tail.next,
            total: tail.value,
            index: rows.index.wrapping_add(1),
            left: rows.left - 1,
        },
    }))
}

// The place after the item count, which is that of the first item.
#[tactic(auto, unfolding(crate::specs::Cursor::after_count))]
fn after_count(buf: &[u8]) -> usize
    ensures { result ≡ after_count buf.now }
{
    log_item::read_number(buf, 0).map_or(0, |count| count.next)
}
