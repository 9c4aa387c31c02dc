// The bytes of a span: whether they lie in the store, and what they begin with. The internal prefix of a key, from lib.rs.
ghost use Rattle.std.specs.Prelude.{◌≡◌};
ghost use Rattle.log_item.specs.Prefix.{prefix, begins, bytes_of, inside};

use crate::Span;

pub const INTERNAL_KEY_PREFIX: [u8; 2] = *b"__";

// Whether all bytes of a span are in the store.
pub fn lies_in(store: &[u8], span: Span) -> bool
    ensures { result ≡ inside store.now span }
{
    span.at <= store.len() && span.len <= store.len() - span.at
}

// Whether the key begins with the internal prefix.
pub(crate) fn is_internal_key(store: &[u8], key: Span) -> bool
    ensures { result ≡ begins (bytes_of store.now key) prefix }
{
    starts_with(store, key, &INTERNAL_KEY_PREFIX)
}

// Whether the bytes of a span begin with `start`. Bytes of the span that lie outside the store are not there.
pub fn starts_with(store: &[u8], span: Span, start: &[u8]) -> bool
    ensures { result ≡ begins (bytes_of store.now span) start.now }
{
    let from = span.at.min(store.len());
    let len = span.len.min(store.len() - from);
    store[from..from + len].starts_with(start)
}
