// The items of a batch in a table: reading a body into it, and writing it as a body. From log_batch.rs, LogItemBatch.
ghost use Rattle.std.specs.Prelude.{◌≡◌, true, false};
ghost use Rattle.log_item.specs.Got.{got};
ghost use Rattle.log_batch.specs.Reading.{count, read_items};
ghost use Rattle.log_batch.specs.Body.{read_body};
ghost use Rattle.log_batch.specs.Table.{empty_table, table_of, body_table};
ghost use Rattle.log_batch.specs.Writing.{BodyWritten};

use crate::body::read_item_count;
use crate::seal::check_seal;
use crate::{LogBatch, LogItemBatch};
use log_item::{EntryIndex, EntryIndexes, Form, LogItem, LogItemContent, Span};
use refusal::Refusal;

// The rows of a table that hold nothing.
const BLANK_ITEM: LogItem = LogItem {
    raft_group_id: 0,
    content: LogItemContent::EntryIndexes(EntryIndexes {
        count: 0,
        first_index: 0,
    }),
};

const BLANK_ENTRY: EntryIndex = EntryIndex {
    index: 0,
    entry_offset: 0,
    entry_len: 0,
};

const NOWHERE: Span = Span { at: 0, len: 0 };

// The table of a body without its footer, or the empty table with the refusal.
pub fn read_items(buf: &[u8]) -> LogItemBatch
    ensures { result ≡ body_table buf.now (read_items Form.Any buf.now) }
{
    LogItemBatch::fill(buf, buf.len())
}

impl LogItemBatch {
    // A table with no rows, with this refusal or none.
    pub(crate) fn empty(refusal: Option<Refusal>) -> LogItemBatch
        ensures { result ≡ empty_table refusal }
    {
        LogItemBatch {
            items: [BLANK_ITEM; 256],
            item_count: 0,
            entries: [BLANK_ENTRY; 1024],
            entry_count: 0,
            total: 0,
            next: 0,
            body: NOWHERE,
            block: NOWHERE,
            refusal,
        }
    }

    // The table of a body with its footer, under a signature, or the empty table with the refusal.
    #[tactic(auto, unfolding(crate::specs::Body::read_body, crate::specs::Table::table_of), using(crate::proofs::Sealing::seal_long))]
    pub fn decode(body: &[u8], signature: u32) -> LogItemBatch
        ensures { result ≡ body_table body.now (read_body body.now signature) }
    {
        if let Err(reason) = check_seal(body, signature) {
            return LogItemBatch::empty(Some(Refusal::from(reason)));
        }
        let n = body.len() - LogBatch::CHECKSUM_LEN;
        LogItemBatch::fill(&body[..n], body.len())
    }

    // The table of a body without its footer; `len` is how long a body it states, from 0 on.
    #[tactic(auto, unfolding(crate::specs::Reading::read_items, crate::specs::Table::table_of))]
    fn fill(buf: &[u8], len: usize) -> LogItemBatch
        ensures { result ≡ table_of (record { at = 0; len = len }) (record { at = 0; len = 0 }) (read_items Form.Any buf.now) }
    {
        match read_item_count(buf, Form::Any) {
            Ok(count) => LogItemBatch::fill_from(buf, len, count.next, count.value as usize),
            Err(reason) => LogItemBatch::empty(Some(Refusal::from(reason))),
        }
    }

    // The same where its `many` items begin at a place. The one place that fills a table.
    fn fill_from(buf: &[u8], len: usize, start: usize, many: usize) -> LogItemBatch
        requires { count Form.Any buf.now 0 ≡ got many start }
        ensures { result ≡ table_of (record { at = 0; len = len }) (record { at = 0; len = 0 }) (read_items Form.Any buf.now) }
    {
        let mut t = LogItemBatch::empty(None);
        let mut at = start;
        let mut total: u32 = 0;
        let mut rows: usize = 0;
        for i in 0..many {
            let head = match LogItem::decode_head(buf, at, rows) {
                Ok(head) => head,
                Err(reason) => return LogItemBatch::empty(Some(Refusal::new(reason, i))),
            };
            t.items[i] = head.value;
            at = head.next;
            let entries = head.value.entries();
            let mut index = entries.first_index;
            for _ in 0..entries.count {
                let tail = match EntryIndexes::decode_tail(buf, at, total) {
                    Ok(tail) => tail,
                    Err(reason) => return LogItemBatch::empty(Some(Refusal::new(reason, i))),
                };
                t.entries[rows] = EntryIndex {
                    index,
                    entry_offset: total,
                    entry_len: tail.value - total,
                };
                rows += 1;
                at = tail.next;
                total = tail.value;
                index = index.wrapping_add(1);
            }
        }
        t.item_count = many;
        t.entry_count = rows;
        t.total = total;
        t.next = at;
        t.body = Span { at: 0, len };
        t
    }

    // Writes the table's items as a body under a signature, from the start of out on, or leaves out as it was and says why; the answer is how
    // many bytes were written. Of the table only the items and the lengths of the entry rows count; `store` has the bytes that the items' spans
    // lie in. A put whose key begins with the internal prefix is refused with 23.
    pub fn encode(&self, store: &[u8], signature: u32, out: &mut [u8]) -> Result<usize, Refusal>
        ensures { BodyWritten true self.now store.now signature out.old result out.new }
    {
        self.encode_body(store, signature, true, out)
    }

    // The same with any key.
    pub fn encode_unchecked(
        &self,
        store: &[u8],
        signature: u32,
        out: &mut [u8],
    ) -> Result<usize, Refusal>
        ensures { BodyWritten false self.now store.now signature out.old result out.new }
    {
        self.encode_body(store, signature, false, out)
    }

    // The same where keys are looked at, or not.
    fn encode_body(
        &self,
        store: &[u8],
        signature: u32,
        checked: bool,
        out: &mut [u8],
    ) -> Result<usize, Refusal>
        ensures { BodyWritten checked self.now store.now signature out.old result out.new }
    {
        let items = self.items;
        let count = self.item_count;
        let entries = self.entries;
        let rows = self.entry_count;
        list_writer::encode(
            items, count, entries, rows, store, signature, checked, out, 0,
        )
    }
}
