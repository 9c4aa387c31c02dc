// The bytes of an entry, as a part of the block that its row names.
ghost use Rattle.std.specs.Prelude.{◌≡◌};
ghost use Rattle.words.specs.Part.{seen};
ghost use Rattle.log_batch.specs.View.{named, entry_check, view_check, failed, viewed};

use crate::seal::{check_block, sealed_len};
use pipe_log::{Location, LogQueue};
use refusal::Reason;

// The bytes of an entry, as a part of whichever block its row's queue names. Where a check fails the part is empty, at that block's start;
// `refused` is set at each call: to why that check failed, or to none.
#[tactic(auto, unfolding(crate::specs::View::viewed))]
pub fn entry_view<'a>(
    row: Location,
    append: &'a [u8],
    rewrite: &'a [u8],
    refused: &mut Option<Reason>,
) -> &'a [u8]
    ensures { (refused.new ≡ failed (view_check row (named row.queue append.entry rewrite.entry).now))
        × (seen result ≡ viewed (view_check row (named row.queue append.entry rewrite.entry).now) row (named row.queue append.entry rewrite.entry)) }
{
    match row.queue {
        LogQueue::Append => part_of(row, append, refused),
        LogQueue::Rewrite => part_of(row, rewrite, refused),
    }
}

// The same of one block.
#[tactic(auto, unfolding(crate::specs::View::viewed, crate::specs::View::entry_check))]
fn part_of<'a>(row: Location, block: &'a [u8], refused: &mut Option<Reason>) -> &'a [u8]
    ensures { (refused.new ≡ failed (view_check row block.now)) × (seen result ≡ viewed (view_check row block.now) row block.entry) }
{
    let offset = u64::from(row.entry_offset);
    let len = u64::from(row.entry_len);
    *refused = check_entry(block, row.len, offset, len).err();
    if refused.is_some() {
        return &block[..0];
    }
    let start = row.entry_offset as usize;
    let end = start + row.entry_len as usize;
    &block[start..end]
}

// The first check of an entry against its block that fails: the block is to have the length `long`, and the entry's bytes stand in its
// content.
#[tactic(auto, unfolding(crate::specs::View::entry_check))]
pub fn check_entry(block: &[u8], long: u64, offset: u64, len: u64) -> Result<(), Reason>
    ensures { result ≡ entry_check long offset len block.now }
{
    if block.len() as u64 != long {
        return Err(Reason::BlockDiffers);
    }
    check_block(block)?;
    let content = sealed_len(block.len()) as u64;
    if content < offset || content - offset < len {
        return Err(Reason::SpanOutside);
    }
    Ok(())
}
