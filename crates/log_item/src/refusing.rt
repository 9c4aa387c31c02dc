// The first refusal of an item that is to be written, and whether its spans lie in the store.
ghost use Rattle.std.specs.Prelude.{◌≡◌};
ghost use Rattle.log_item.specs.Refusing.{op_inside, content_inside, entries_refusal, key_refusal, content_refusal};
ghost use Rattle.log_item.specs.Written.{piece_refusal};

use crate::prefix::{is_internal_key, lies_in};
use crate::{ENTRIES_MAX, EntryIndexes, KeyValue, LogItemContent, Op};
use refusal::Reason;

// Of a content that is to be written: why it is refused, but for 16.
#[tactic(auto, unfolding(crate::specs::Refusing::content_refusal))]
pub(crate) fn content_refusal(
    content: LogItemContent,
    store: &[u8],
    checked: bool,
    used: usize,
    rows: usize,
) -> Result<(), Reason>
    ensures { result ≡ content_refusal store.now checked used rows content }
{
    match content {
        LogItemContent::EntryIndexes(e) => entries_refusal(e, used, rows),
        LogItemContent::Command(_) => Ok(()),
        LogItemContent::Kv(kv) => key_refusal(kv, store, checked),
    }
}

#[tactic(auto, unfolding(crate::specs::Refusing::entries_refusal))]
fn entries_refusal(e: EntryIndexes, used: usize, rows: usize) -> Result<(), Reason>
    ensures { result ≡ entries_refusal used rows e }
{
    let n = e.count;
    if ENTRIES_MAX < used || ENTRIES_MAX - used < n {
        return Err(Reason::EntriesTooMany);
    }
    if n == 0 {
        return Ok(());
    }
    if rows < used + n {
        return Err(Reason::SpanOutside);
    }
    if u64::MAX - e.first_index < (n - 1) as u64 {
        return Err(Reason::IndexTooLarge);
    }
    Ok(())
}

#[tactic(auto, unfolding(crate::specs::Refusing::key_refusal))]
fn key_refusal(kv: KeyValue, store: &[u8], checked: bool) -> Result<(), Reason>
    ensures { result ≡ key_refusal store.now checked kv.key kv.op }
{
    if !op_inside(kv, store) {
        return Err(Reason::SpanOutside);
    }
    match kv.op {
        Op::Put { .. } if checked && is_internal_key(store, kv.key) => Err(Reason::KeyInternal),
        _ => Ok(()),
    }
}

// Whether the spans of a content lie in the store.
pub(crate) fn content_inside(content: LogItemContent, store: &[u8]) -> bool
    ensures { result ≡ content_inside store.now content }
{
    match content {
        LogItemContent::Kv(kv) => op_inside(kv, store),
        _ => true,
    }
}

pub(crate) fn op_inside(kv: KeyValue, store: &[u8]) -> bool
    ensures { result ≡ op_inside store.now kv.key kv.op }
{
    match kv.op {
        Op::Put { value } => lies_in(store, kv.key) && lies_in(store, value),
        Op::Del => lies_in(store, kv.key),
    }
}

// Of a piece whose spans lie in the store or not: 13, then 21 where its `len` bytes do not fit from a place on among `all`.
#[tactic(auto, unfolding(crate::specs::Written::piece_refusal))]
pub(crate) fn piece_refusal(lies: bool, all: usize, at: usize, len: usize) -> Result<(), Reason>
    ensures { result ≡ piece_refusal lies at len all }
{
    if !lies {
        return Err(Reason::SpanOutside);
    }
    if all < at || all - at < len {
        return Err(Reason::OutputShort);
    }
    Ok(())
}
