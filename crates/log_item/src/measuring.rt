// The lengths of the pieces of an item, none above the largest number.
ghost use Rattle.std.specs.Prelude.{◌≡◌, length};
ghost use Rattle.log_item.specs.Bytes.{command_bytes, entries_bytes};
ghost use Rattle.log_item.specs.Private.{fitted, span_length, op_length, item_content_length, head_length};

use crate::{Command, EntryIndexes, KeyValue, LogItem, LogItemContent, Op, Span};
use codec::var_u64_len;

#[tactic(auto, unfolding(crate::specs::Private::head_length), using(codec::proofs::Shortest::shortest_few))]
pub(crate) fn head_len(item: LogItem) -> usize
    ensures { result ≡ fitted (head_length item) }
{
    content_len(item.content).saturating_add(1 + var_u64_len(item.raft_group_id))
}

#[tactic(auto, unfolding(crate::specs::Private::item_content_length))]
fn content_len(content: LogItemContent) -> usize
    ensures { result ≡ fitted (item_content_length content) }
{
    match content {
        LogItemContent::EntryIndexes(e) => entries_len(e),
        LogItemContent::Command(c) => command_len(c),
        LogItemContent::Kv(kv) => op_len(kv),
    }
}

#[tactic(auto, using(codec::proofs::Shortest::shortest_few, crate::proofs::Lengths::none_length, crate::proofs::Lengths::some_length))]
pub(crate) fn entries_len(e: EntryIndexes) -> usize
    ensures { result ≡ fitted (length (entries_bytes e.count e.first_index)) }
{
    if e.count == 0 {
        return 1;
    }
    var_u64_len(e.count as u64) + var_u64_len(e.first_index)
}

#[tactic(auto, unfolding(crate::specs::Bytes::command_bytes), using(codec::proofs::Shortest::shortest_few))]
pub(crate) fn command_len(c: Command) -> usize
    ensures { result ≡ fitted (length (command_bytes c)) }
{
    match c {
        Command::Clean => 1,
        Command::Compact { index } => 1 + var_u64_len(index),
    }
}

#[tactic(auto, unfolding(crate::specs::Private::op_length))]
pub(crate) fn op_len(kv: KeyValue) -> usize
    ensures { result ≡ fitted (op_length kv.key kv.op) }
{
    let len = span_len(kv.key).saturating_add(1);
    match kv.op {
        Op::Put { value } => len.saturating_add(span_len(value)),
        Op::Del => len,
    }
}

fn span_len(span: Span) -> usize
    ensures { result ≡ fitted (span_length span) }
{
    span.len.saturating_add(var_u64_len(span.len as u64))
}
