// Numbers of the batch format, read and written at a place of a lent slice: base-128 varints of 1 to 10 bytes, written in their shortest
// spelling. From codec.rs, the part that log batches use.
//
// Words stand in a crate below this one; their functions have their names here too. Every public function takes any arguments: a place may
// lie anywhere, past the end too, and what does not fit is not written.
#![tactic(auto)]

ghost use Rattle.std.specs.Prelude.{◌≡◌, ◌+◌, ◌-◌, ◌<◌, ◌≤◌, min, length};
ghost use Rattle.codec.specs.Number.{read_number};
ghost use Rattle.codec.specs.Shortest.{shortest};
ghost use Rattle.codec.specs.Private.{SoFar};
ghost use Rattle.words.specs.Write.{wrote_at, next_at, placed};

pub use words::{
    Piece, decode_u32_le, decode_u64, encode_u32_le, encode_u64, least, wide, write_bytes,
};

// Why no number stands at a place: the bytes end inside or before it, or its tenth byte is above 1.
#[derive(Clone, Copy, Debug, PartialEq, Eq)]
pub enum NumberError {
    Eof,
    Overflow,
}

// The length of the shortest spelling of n.
#[tactic(auto, using(crate::proofs::Theorems::shortest_length))]
pub fn var_u64_len(n: u64) -> usize
    ensures { result ≡ length (shortest n) }
{
    ((70 - (n | 1).leading_zeros()) / 7) as usize
}

// The number at a place, in any permitted spelling.
#[tactic(auto, using(crate::proofs::Reading::first_short, crate::proofs::Reading::first_one, crate::proofs::Reading::so_far_one))]
pub fn decode_var_u64(buf: &[u8], at: usize) -> Result<Piece<u64>, NumberError>
    ensures { result ≡ read_number buf.now at }
{
    if buf.len() <= at {
        return Err(NumberError::Eof);
    }
    let first = u64::from(buf[at]);
    if first < 128 {
        return Ok(Piece {
            value: first,
            next: at + 1,
        });
    }
    decode_up_to(buf, at, first - 128, 1, (buf.len() - at).min(9))
}

// The same, quicker for a number by itself and too large to be put in line at many places: two to five bytes are a case of their own each,
// and the loop over the others is unrolled.
pub fn decode_var_u64_unrolled(buf: &[u8], at: usize) -> Result<Piece<u64>, NumberError>
    ensures { result ≡ read_number buf.now at }
{
    if buf.len() <= at {
        return Err(NumberError::Eof);
    }
    if buf.len() - at < 9 {
        return decode_var_u64(buf, at);
    }
    let first = u64::from(buf[at]);
    if first < 128 {
        return Ok(Piece {
            value: first,
            next: at + 1,
        });
    }
    let second = u64::from(buf[at + 1]);
    if second < 128 {
        return Ok(Piece {
            value: first - 128 + (second << 7),
            next: at + 2,
        });
    }
    decode_longer(buf, at, first - 128 + ((second - 128) << 7))
}

// The same where two bytes, which say `two`, were not the last, and nine are there.
fn decode_longer(buf: &[u8], at: usize, two: u64) -> Result<Piece<u64>, NumberError>
    requires { (at + 8 < length buf.now) × SoFar buf.now at 2 two }
    ensures { result ≡ read_number buf.now at }
{
    let third = u64::from(buf[at + 2]);
    if third < 128 {
        return Ok(Piece {
            value: two + (third << 14),
            next: at + 3,
        });
    }
    let three = two + ((third - 128) << 14);
    let fourth = u64::from(buf[at + 3]);
    if fourth < 128 {
        return Ok(Piece {
            value: three + (fourth << 21),
            next: at + 4,
        });
    }
    let four = three + ((fourth - 128) << 21);
    let fifth = u64::from(buf[at + 4]);
    if fifth < 128 {
        return Ok(Piece {
            value: four + (fifth << 28),
            next: at + 5,
        });
    }
    decode_up_to(buf, at, four + ((fifth - 128) << 28), 5, 9)
}

// The same where `from` bytes, which say `start`, were not the last, by a loop up to `end` bytes: nine, or all where fewer are left.
fn decode_up_to(
    buf: &[u8],
    at: usize,
    start: u64,
    from: usize,
    end: usize,
) -> Result<Piece<u64>, NumberError>
    requires { (at < length buf.now) × (1 ≤ from) × (from ≤ end) × (end ≡ min (length buf.now - at) 9) × SoFar buf.now at from start }
    ensures { result ≡ read_number buf.now at }
{
    let mut value = start;
    for j in from..end {
        let b = u64::from(buf[at + j]);
        if b < 128 {
            return Ok(Piece {
                value: value + (b << (7 * j)),
                next: at + j + 1,
            });
        }
        value += (b - 128) << (7 * j);
    }
    if buf.len() - at <= 9 {
        return Err(NumberError::Eof);
    }
    let b = u64::from(buf[at + 9]);
    if 1 < b {
        return Err(NumberError::Overflow);
    }
    Ok(Piece {
        value: value + (b << 63),
        next: at + 10,
    })
}

// Writes the shortest spelling of n at a place of out.
pub fn encode_var_u64(n: u64, out: &mut [u8], at: usize) -> Option<usize>
    ensures { (result ≡ wrote_at out.old at (shortest n)) × (out.new ≡ placed out.old at (shortest n)) }
{
    if n < 128 {
        if out.len() <= at {
            return None;
        }
        out[at] = n as u8;
        return Some(at + 1);
    }
    encode_long(n, out, at)
}

// The same for any length: a function of its own, so that one byte stays in line.
fn encode_long(n: u64, out: &mut [u8], at: usize) -> Option<usize>
    ensures { (result ≡ wrote_at out.old at (shortest n)) × (out.new ≡ placed out.old at (shortest n)) }
{
    if out.len() < at {
        return None;
    }
    let room = out.len() - at;
    if room < 10 && room < var_u64_len(n) {
        return None;
    }
    let mut left = n;
    let mut i = at;
    while 128 <= left {
        out[i] = (128 + left % 128) as u8;
        left /= 128;
        i += 1;
    }
    out[i] = left as u8;
    Some(i + 1)
}

// The same, quicker for two bytes and more and too large to be put in line at many places: the loop over nine bytes is unrolled.
pub fn encode_var_u64_unrolled(n: u64, out: &mut [u8], at: usize) -> Option<usize>
    ensures { (result ≡ wrote_at out.old at (shortest n)) × (out.new ≡ placed out.old at (shortest n)) }
{
    if n < 16384 {
        return encode_short(n, out, at);
    }
    if out.len() < at {
        return None;
    }
    let room = out.len() - at;
    if room < 10 {
        return encode_var_u64(n, out, at);
    }
    let mut left = n;
    for j in 0..9 {
        if left < 128 {
            out[at + j] = left as u8;
            return Some(at + j + 1);
        }
        out[at + j] = (128 + left % 128) as u8;
        left /= 128;
    }
    out[at + 9] = left as u8;
    Some(at + 10)
}

// A number of one byte or two.
fn encode_short(n: u64, out: &mut [u8], at: usize) -> Option<usize>
    requires { n < 16384 }
    ensures { (result ≡ wrote_at out.old at (shortest n)) × (out.new ≡ placed out.old at (shortest n)) }
{
    if n < 128 {
        return encode_var_u64(n, out, at);
    }
    if out.len() < at || out.len() - at < 2 {
        return None;
    }
    out[at] = (128 + n % 128) as u8;
    out[at + 1] = (n / 128) as u8;
    Some(at + 2)
}

// Writes the shortest spelling of n and answers the place after it, or the place itself where it does not fit.
#[tactic(auto, unfolding(words::specs::Write::next_at))]
pub fn put_var_u64(n: u64, out: &mut [u8], at: usize) -> usize
    ensures { (result ≡ next_at out.old at (shortest n)) × (out.new ≡ placed out.old at (shortest n)) }
{
    encode_var_u64(n, out, at).unwrap_or(at)
}
