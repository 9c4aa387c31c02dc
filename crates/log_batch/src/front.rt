// What stands before the body of a whole batch that is written: header and block. From log_batch.rs, LogBatch.
ghost use Rattle.std.specs.Prelude.{◌≡◌, ◌<◌, ◌≤◌, length};
ghost use Rattle.log_batch.specs.Front.{measured_length, body_offset, front_bytes, batch_encoded, FrontWritten};
ghost use Rattle.words.specs.Write.{placed};
ghost use Rattle.log_item.specs.Private.{Room};

use crate::LogBatch;
use list_writer::Measured;
use refusal::{Reason, Refusal};

// Begins a whole batch whose body has this measure: decides every refusal, and where there is none writes header and block at the start
// of out; the body is to follow, and ends at the length that is answered. Else out is as it was. No body has more than
// list_writer::BODY_LEN_MAX bytes: such a measure is a 22.
#[tactic(auto, unfolding(crate::specs::Front::front_encoded, list_writer::specs::Answers::laid))]
pub fn begin(
    m: Result<Measured, Refusal>,
    items: usize,
    content: &[u8],
    out: &mut [u8],
) -> Result<usize, Refusal>
    ensures { FrontWritten m items content.now out.old result out.new }
{
    if let Ok(body) = m {
        if list_writer::BODY_LEN_MAX < body.length {
            return Err(Refusal::from(Reason::OutputTooLong));
        }
    }
    let len = plan(m, items, content, out.len())?;
    if len != 0 {
        write_front(content, len, out);
    }
    Ok(len)
}

// The answer to a batch whose body has this measure: every refusal is decided before a byte is written.
#[tactic(auto, unfolding(crate::specs::Front::batch_encoded), using(crate::proofs::Planning::block_empty, crate::proofs::Planning::block_filled, crate::proofs::Planning::block_small))]
fn plan(
    m: Result<Measured, Refusal>,
    items: usize,
    content: &[u8],
    room: usize,
) -> Result<usize, Refusal>
    requires { measured_length m ≤ 4294967295 }
    ensures { result ≡ batch_encoded m items content.now room }
{
    if items == 0 && content.is_empty() {
        return Ok(0);
    }
    let body = m?;
    if body.length == 0 {
        return Ok(0);
    }
    if 2147483647 < body.total {
        return Err(Refusal::from(Reason::OutputTooLong));
    }
    if body.total as usize != content.len() {
        return Err(Refusal::from(Reason::BlockDiffers));
    }
    let size = body_offset(content) + body.length;
    if room < size {
        return Err(Refusal::from(Reason::OutputShort));
    }
    Ok(size)
}

// Where the body stands behind a block of this content.
#[tactic(auto, using(crate::proofs::Planning::block_empty, crate::proofs::Planning::block_filled))]
fn body_offset(content: &[u8]) -> usize
    requires { length content.now ≤ 2147483647 }
    ensures { result ≡ body_offset content.now }
{
    if content.is_empty() {
        return LogBatch::HEADER_LEN;
    }
    LogBatch::HEADER_LEN + content.len() + LogBatch::CHECKSUM_LEN
}

// Writes the header of a batch of this length, and the block.
fn write_front(content: &[u8], len: usize, out: &mut [u8])
    requires { (length content.now ≤ 2147483647) × (len < 72057594037927936) × Room out.old 0 (front_bytes len content.now) }
    ensures { out.new ≡ placed out.old 0 (front_bytes len content.now) }
{
    let start = LogBatch::HEADER_LEN;
    let offset = body_offset(content);
    codec::encode_u64(len as u64 * 256, out, 0);
    codec::encode_u64(offset as u64, out, 8);
    if content.is_empty() {
        return;
    }
    codec::write_bytes(content, out, start);
    codec::encode_u32_le(crc::crc32(content), out, start + content.len());
}
