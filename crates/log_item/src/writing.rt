// Writing one item at a place of a lent buffer. From log_batch.rs, the encode of EntryIndexes, Command, KeyValue and LogItem.
//
// What does not fit, or has a span outside the store, is not written at all.
ghost use Rattle.std.specs.Prelude.{◌≡◌, true, [], ◌∷◌, ◌≤◌};
ghost use Rattle.codec.specs.Shortest.{shortest};
ghost use Rattle.log_item.specs.Entries.{type_of};
ghost use Rattle.log_item.specs.Prefix.{bytes_of, inside};
ghost use Rattle.log_item.specs.Bytes.{span_bytes, command_bytes, entries_bytes, op_bytes, content_bytes, head_bytes, tails_bytes};
ghost use Rattle.log_item.specs.Refusing.{op_inside, content_inside};
ghost use Rattle.log_item.specs.Written.{measure_item, PieceWritten, ItemWritten, sum_of};
ghost use Rattle.log_item.specs.Private.{Room, Stored, tails_size};

use crate::measuring::{command_len, entries_len, head_len, op_len};
use crate::refusing::{content_inside, content_refusal, op_inside, piece_refusal};
use crate::{
    Command, EntryIndexes, HeadSize, ItemWrote, KeyValue, LogItem, LogItemContent, Op, Span,
};
use codec::var_u64_len;
use refusal::Reason;

// All lengths of an item above 4,294,967,295 count as this.
const TOO_LONG: usize = 4_294_967_296;

impl LogItem {
    // What writing an item takes, where items before it use `used` of the `rows` that are lent; put keys are looked at where `checked`.
    #[tactic(auto, unfolding(crate::specs::Written::measure_item), using(crate::proofs::Written::measure_fine))]
    pub fn measure(
        self,
        store: &[u8],
        checked: bool,
        used: usize,
        rows: usize,
    ) -> Result<HeadSize, Reason>
        ensures { result ≡ measure_item store.now checked used rows self }
    {
        content_refusal(self.content, store, checked, used, rows)?;
        Ok(HeadSize {
            len: head_len(self).min(TOO_LONG),
            count: self.entries().count,
        })
    }

    // Writes an item up to its tails at a place of out: 13, then 21. Put keys are not looked at (no 23), nor are rows of entries.
    #[tactic(auto, unfolding(crate::specs::Written::piece_refusal), using(crate::proofs::Lengths::head_told, crate::proofs::Stores::piece_refused))]
    pub fn encode_head(self, store: &[u8], out: &mut [u8], at: usize) -> Result<usize, Reason>
        ensures { PieceWritten (content_inside store.now self.content) (head_bytes store.now self) out.old at result out.new }
    {
        let lies = content_inside(self.content, store);
        piece_refusal(lies, out.len(), at, head_len(self))?;
        Ok(put_head(self, store, out, at))
    }

    // Writes an item with its tails at a place of out. The first of the lengths are those of its rows, and `total` is the sum of those before them.
    // Put keys are not looked at (no 23), and 14 counts this item's entries alone.
    pub fn encode(
        self,
        store: &[u8],
        lengths: &[u32],
        total: u32,
        out: &mut [u8],
        at: usize,
    ) -> Result<ItemWrote, Reason>
        ensures { ItemWritten store.now self lengths.now total out.old at result out.new }
    {
        content_refusal(self.content, store, false, 0, lengths.len())?;
        let rows = &lengths[..self.entries().count];
        let (len, after) = tails_size(rows, total)?;
        piece_refusal(true, out.len(), at, head_len(self).saturating_add(len))?;
        let tails = put_head(self, store, out, at);
        let next = put_tails(rows, total, out, tails);
        Ok(ItemWrote { next, total: after })
    }
}

impl EntryIndexes {
    // Writes a count of entries, and their first index where there are any, at a place of out, or 21.
    #[tactic(auto, unfolding(crate::specs::Written::piece_refusal), using(crate::proofs::Lengths::bytes_told, crate::proofs::Stores::piece_refused))]
    pub fn encode(self, out: &mut [u8], at: usize) -> Result<usize, Reason>
        ensures { PieceWritten true (entries_bytes self.count self.first_index) out.old at result out.new }
    {
        piece_refusal(true, out.len(), at, entries_len(self))?;
        Ok(put_entries(self, out, at))
    }
}

impl Command {
    // Writes a command at a place of out, or 21.
    #[tactic(auto, unfolding(crate::specs::Written::piece_refusal), using(crate::proofs::Lengths::bytes_told, crate::proofs::Stores::piece_refused))]
    pub fn encode(self, out: &mut [u8], at: usize) -> Result<usize, Reason>
        ensures { PieceWritten true (command_bytes self) out.old at result out.new }
    {
        piece_refusal(true, out.len(), at, command_len(self))?;
        Ok(put_command(self, out, at))
    }
}

impl KeyValue {
    // Writes an op, its key and the content of a put at a place of out: 13, then 21.
    #[tactic(auto, unfolding(crate::specs::Written::piece_refusal), using(crate::proofs::Lengths::op_told, crate::proofs::Stores::piece_refused))]
    pub fn encode(self, store: &[u8], out: &mut [u8], at: usize) -> Result<usize, Reason>
        ensures { PieceWritten (op_inside store.now self.key self.op) (op_bytes store.now self.key self.op) out.old at result out.new }
    {
        piece_refusal(op_inside(self, store), out.len(), at, op_len(self))?;
        Ok(put_op(self, store, out, at))
    }
}

// The length of the tails of entries of these lengths, and the total after them; or 16.
#[tactic(auto, using(crate::proofs::Tails::size_end, crate::proofs::Tails::size_next, crate::proofs::Tails::size_over))]
fn tails_size(lengths: &[u32], before: u32) -> Result<(usize, u32), Reason>
    ensures { result ≡ tails_size 0 lengths.now before }
{
    let mut total = before;
    let mut size: usize = 0;
    for &len in lengths {
        total = total.checked_add(len).ok_or(Reason::TailTooLarge)?;
        size = size.saturating_add(var_u64_len(u64::from(total)));
    }
    Ok((size, total))
}

// ---- writing where there is room

#[tactic(auto, unfolding(crate::specs::Bytes::head_bytes), using(crate::proofs::Stores::in_turn))]
fn put_head(item: LogItem, store: &[u8], out: &mut [u8], at: usize) -> usize
    requires lies { content_inside store.now item.content ≡ true }
    requires room { Room out.old at (head_bytes store.now item) }
    ensures { Stored out.old at (head_bytes store.now item) result out.new }
{
    let next = put_number(item.raft_group_id, out, at);
    put_content(item.content, store, out, next)
}

// The type byte and the content.
#[tactic(auto, unfolding(crate::specs::Bytes::content_bytes), using(crate::proofs::Stores::in_turn))]
fn put_content(content: LogItemContent, store: &[u8], out: &mut [u8], at: usize) -> usize
    requires lies { content_inside store.now content ≡ true }
    requires room { Room out.old at (type_of content ∷ content_bytes store.now content) }
    ensures { Stored out.old at (type_of content ∷ content_bytes store.now content) result out.new }
{
    match content {
        LogItemContent::EntryIndexes(e) => {
            let next = put_byte(1, out, at);
            put_entries(e, out, next)
        }
        LogItemContent::Command(c) => {
            let next = put_byte(2, out, at);
            put_command(c, out, next)
        }
        LogItemContent::Kv(kv) => {
            let next = put_byte(3, out, at);
            put_op(kv, store, out, next)
        }
    }
}

#[tactic(auto, using(crate::proofs::Lengths::entries_none, crate::proofs::Lengths::entries_some, crate::proofs::Stores::in_turn))]
fn put_entries(e: EntryIndexes, out: &mut [u8], at: usize) -> usize
    requires { Room out.old at (entries_bytes e.count e.first_index) }
    ensures { Stored out.old at (entries_bytes e.count e.first_index) result out.new }
{
    let count = e.count;
    let next = put_number(count as u64, out, at);
    if count == 0 {
        return next;
    }
    put_number(e.first_index, out, next)
}

#[tactic(auto, unfolding(crate::specs::Bytes::command_bytes), using(crate::proofs::Stores::in_turn))]
fn put_command(c: Command, out: &mut [u8], at: usize) -> usize
    requires { Room out.old at (command_bytes c) }
    ensures { Stored out.old at (command_bytes c) result out.new }
{
    match c {
        Command::Clean => put_byte(1, out, at),
        Command::Compact { index } => {
            let next = put_byte(2, out, at);
            put_number(index, out, next)
        }
    }
}

#[tactic(auto, unfolding(crate::specs::Bytes::op_bytes), using(crate::proofs::Stores::in_turn))]
fn put_op(kv: KeyValue, store: &[u8], out: &mut [u8], at: usize) -> usize
    requires lies { op_inside store.now kv.key kv.op ≡ true }
    requires room { Room out.old at (op_bytes store.now kv.key kv.op) }
    ensures { Stored out.old at (op_bytes store.now kv.key kv.op) result out.new }
{
    match kv.op {
        Op::Put { value } => {
            let next = put_byte(1, out, at);
            let middle = put_span(kv.key, store, out, next);
            put_span(value, store, out, middle)
        }
        Op::Del => {
            let next = put_byte(2, out, at);
            put_span(kv.key, store, out, next)
        }
    }
}

#[tactic(auto, unfolding(crate::specs::Bytes::span_bytes), using(crate::proofs::Stores::in_turn))]
fn put_span(span: Span, store: &[u8], out: &mut [u8], at: usize) -> usize
    requires lies { inside store.now span ≡ true }
    requires room { Room out.old at (span_bytes store.now span) }
    ensures { Stored out.old at (span_bytes store.now span) result out.new }
{
    let next = put_number(span.len as u64, out, at);
    put_part(span, store, out, next)
}

fn put_part(span: Span, store: &[u8], out: &mut [u8], at: usize) -> usize
    requires lies { inside store.now span ≡ true }
    requires room { Room out.old at (bytes_of store.now span) }
    ensures { Stored out.old at (bytes_of store.now span) result out.new }
{
    match codec::write_bytes(&store[span.at..span.at + span.len], out, at) {
        Some(next) => next,
        None => at,
    }
}

// A tail for each of the lengths.
#[tactic(auto, using(crate::proofs::Tails::putting_start))]
fn put_tails(lengths: &[u32], before: u32, out: &mut [u8], start: usize) -> usize
    requires low { sum_of before lengths.now ≤ 4294967295 }
    requires room { Room out.old start (tails_bytes lengths.now before) }
    ensures { Stored out.old start (tails_bytes lengths.now before) result out.new }
{
    let mut total = before;
    let mut at = start;
    for &len in lengths {
        total += len;
        at = put_number(u64::from(total), out, at);
    }
    at
}

fn put_number(n: u64, out: &mut [u8], at: usize) -> usize
    requires { Room out.old at (shortest n) }
    ensures { Stored out.old at (shortest n) result out.new }
{
    codec::put_var_u64(n, out, at)
}

fn put_byte(b: u8, out: &mut [u8], at: usize) -> usize
    requires { Room out.old at (b ∷ []) }
    ensures { Stored out.old at (b ∷ []) result out.new }
{
    out[at] = b;
    at + 1
}
