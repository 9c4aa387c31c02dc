// The status of an atomic group, which an item may mark. From log_batch.rs, AtomicGroupStatus.
ghost use Rattle.std.specs.Prelude.{◌≡◌, true};
ghost use Rattle.log_item.specs.Prefix.{inside};
ghost use Rattle.log_batch.specs.Status.{is_mark, status_byte, mark_of, status_of};

use crate::{AtomicGroupStatus, Mark};
use log_item::{LogItem, LogItemContent, Op, Span};
use refusal::Reason;

// The key of a mark: the internal prefix, log_item::INTERNAL_KEY_PREFIX, and the byte 01.
const MARK_KEY: [u8; 3] = *b"__\x01";

impl AtomicGroupStatus {
    // What an item marks, or none where it is no mark. `store` has the bytes that the item's spans lie in.
    #[tactic(auto, unfolding(crate::specs::Status::status_of, crate::specs::Status::mark_of))]
    pub fn parse(item: LogItem, store: &[u8]) -> Result<Option<Mark>, Reason>
        ensures { result ≡ status_of item.raft_group_id item.content store.now }
    {
        let LogItemContent::Kv(kv) = item.content else {
            return Ok(None);
        };
        if !log_item::lies_in(store, kv.key) {
            return Err(Reason::SpanOutside);
        }
        let Op::Put { value } = kv.op else {
            return Ok(None);
        };
        if !log_item::lies_in(store, value) {
            return Err(Reason::SpanOutside);
        }
        mark_of(item.raft_group_id, kv.key, value, store)
    }
}

// What a put marks, its content lying in the store.
#[tactic(auto, unfolding(crate::specs::Status::mark_of, crate::specs::Status::marked))]
fn mark_of(group: u64, key: Span, value: Span, store: &[u8]) -> Result<Option<Mark>, Reason>
    requires { inside store.now value ≡ true }
    ensures { result ≡ mark_of group key (Op.Put value) store.now }
{
    if !is_mark(store, key) || value.len != 1 {
        return Ok(None);
    }
    let status = AtomicGroupStatus::try_from(store[value.at])?;
    Ok(Some(Mark { id: group, status }))
}

// 0 begin, 1 middle, 2 end.
impl TryFrom<u8> for AtomicGroupStatus {
    type Error = Reason;

    fn try_from(b: u8) -> Result<AtomicGroupStatus, Reason>
        ensures { result ≡ status_byte b }
    {
        match b {
            0 => Ok(AtomicGroupStatus::Begin),
            1 => Ok(AtomicGroupStatus::Middle),
            2 => Ok(AtomicGroupStatus::End),
            _ => Err(Reason::StatusUnknown),
        }
    }
}

// Whether a key is that of a mark.
fn is_mark(store: &[u8], key: Span) -> bool
    ensures { result ≡ is_mark store.now key }
{
    key.len == MARK_KEY.len() && log_item::starts_with(store, key, &MARK_KEY)
}
