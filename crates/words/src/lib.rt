// Words of a fixed number of bytes, read and written at a place of a lent slice: big-endian ones of 64 bits, little-endian ones of 32; the copying
// of bytes, the lesser of two and a byte as a number. From codec.rs, the part that log batches use.
//
// Every public function takes any arguments. A place may lie anywhere, past the end too, and what does not fit is not written.
#![tactic(auto)]

ghost use Rattle.std.specs.Prelude.{◌≡◌, [], ◌∷◌, ℕ, min, ◌<◌, ◌^◌, get_or};
ghost use Rattle.words.specs.Byte.{Bytes};
ghost use Rattle.words.specs.Word.{big_endian, big_endian_bytes, little_endian_bytes, read_u64, read_u32};
ghost use Rattle.words.specs.Write.{wrote_at, placed};

// A piece of the bytes, and the place after it.
#[derive(Clone, Copy, Debug, PartialEq, Eq)]
pub struct Piece<T> {
    pub value: T,
    pub next: usize,
}

// Writes w at a place of out, highest byte first, and answers the place after it; where it does not fit nothing is written.
pub fn encode_u64(w: u64, out: &mut [u8], at: usize) -> Option<usize>
    ensures { (result ≡ wrote_at out.old at (big_endian_bytes 8 w)) × (out.new ≡ placed out.old at (big_endian_bytes 8 w)) }
{
    write_bytes(&be_bytes(w), out, at)
}

// The same, lowest byte first.
pub fn encode_u32_le(w: u32, out: &mut [u8], at: usize) -> Option<usize>
    ensures { (result ≡ wrote_at out.old at (little_endian_bytes 4 w)) × (out.new ≡ placed out.old at (little_endian_bytes 4 w)) }
{
    write_bytes(&w.to_le_bytes(), out, at)
}

// The same of all of src. A loop, and no copying of slices, for which the library for C would need memmove from outside.
pub fn write_bytes(src: &[u8], out: &mut [u8], at: usize) -> Option<usize>
    ensures { (result ≡ wrote_at out.old at src.now) × (out.new ≡ placed out.old at src.now) }
{
    if out.len() < at || out.len() - at < src.len() {
        return None;
    }
    for i in 0..src.len() {
        out[at + i] = src[i];
    }
    Some(at + src.len())
}

// The bytes of w, highest first, by its two halves.
fn be_bytes(w: u64) -> [u8; 8]
    ensures { result ≡ big_endian_bytes 8 w }
{
    let high = ((w / 4_294_967_296) as u32).to_le_bytes();
    let low = ((w % 4_294_967_296) as u32).to_le_bytes();
    [
        high[3], high[2], high[1], high[0], low[3], low[2], low[1], low[0],
    ]
}

// The big-endian word of eight bytes at a place, where they are there.
#[tactic(auto, using(crate::proofs::Words::u64_none, crate::proofs::Words::u64_some))]
pub fn decode_u64(buf: &[u8], at: usize) -> Option<Piece<u64>>
    ensures { result ≡ read_u64 buf.now at }
{
    if buf.len() < at || buf.len() - at < 8 {
        return None;
    }
    let high = half(buf[at], buf[at + 1], buf[at + 2], buf[at + 3]);
    let low = half(buf[at + 4], buf[at + 5], buf[at + 6], buf[at + 7]);
    let value = u64::from(high) * 4_294_967_296 + u64::from(low);
    Some(Piece {
        value,
        next: at + 8,
    })
}

// The little-endian word of four bytes at a place, where they are there.
pub fn decode_u32_le(buf: &[u8], at: usize) -> Option<Piece<u32>>
    ensures { result ≡ read_u32 buf.now at }
{
    if buf.len() < at || buf.len() - at < 4 {
        return None;
    }
    let value = u32::from_le_bytes([buf[at], buf[at + 1], buf[at + 2], buf[at + 3]]);
    Some(Piece {
        value,
        next: at + 4,
    })
}

// Half a word: four bytes, highest first.
fn half(a: u8, b: u8, c: u8, d: u8) -> u32
    ensures { result ≡ big_endian (a ∷ b ∷ c ∷ d ∷ []) }
{
    u32::from_be_bytes([a, b, c, d])
}

// The lesser of two.
pub fn least(a: usize, b: usize) -> usize
    ensures { result ≡ min a b }
{
    a.min(b)
}

// A byte as a number of 64 bits.
pub fn wide(b: u8) -> u64
    ensures { result ≡ b }
{
    u64::from(b)
}

// What the types of arguments say of them, as theorems ask for it: bytes are below 256, a number below 2^64, a signature below 2^32. No one
// calls it; its contract is what it is for, and so with the next.
fn typed(bytes: &[u8], number: u64, signature: u32) -> u8
    ensures { Bytes bytes.now × (number < 2 ^ 64) × (signature < 2 ^ 32) }
{
    bytes.first().copied().unwrap_or(0)
}

// The same of lent words: each is below 2^64.
fn typed_words(words: &[u64]) -> u64
    ensures { (i : ℕ) → get_or words.now i 0 < 2 ^ 64 }
{
    words.first().copied().unwrap_or(0)
}
