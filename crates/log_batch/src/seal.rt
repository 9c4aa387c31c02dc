// The checksum behind a body, under a signature, and behind a block. From log_batch.rs, verify_checksum_with_signature.
ghost use Rattle.std.specs.Prelude.{◌≡◌, ◌-◌};
ghost use Rattle.log_batch.specs.Seal.{seal_check, block_check};

use crate::LogBatch;
use refusal::Reason;

// Whether the last four bytes are the checksum of those before them XOR the signature: 5 or 6 where not.
#[tactic(auto, unfolding(crate::specs::Seal::seal_check), using(crate::proofs::Sealing::footer_read))]
pub fn check_seal(bytes: &[u8], signature: u32) -> Result<(), Reason>
    ensures { result ≡ seal_check bytes.now signature }
{
    if bytes.len() <= LogBatch::CHECKSUM_LEN {
        return Err(Reason::NoContent);
    }
    let n = bytes.len() - LogBatch::CHECKSUM_LEN;
    let footer = words::decode_u32_le(bytes, n).ok_or(Reason::NoContent)?;
    if footer.value != crc::crc32(&bytes[..n]) ^ signature {
        return Err(Reason::ChecksumWrong);
    }
    Ok(())
}

// Whether a block is empty, or its last four bytes are the checksum of those before them: 5 or 6 where not.
#[tactic(auto, unfolding(crate::specs::Seal::block_check))]
pub(crate) fn check_block(block: &[u8]) -> Result<(), Reason>
    ensures { result ≡ block_check block.now }
{
    if block.is_empty() {
        return Ok(());
    }
    check_seal(block, 0)
}

// How many of so many bytes stand before a checksum: the length of a block's content, or of a body without its footer.
pub fn sealed_len(len: usize) -> usize
    ensures { result ≡ len - 4 }
{
    len.saturating_sub(LogBatch::CHECKSUM_LEN)
}
