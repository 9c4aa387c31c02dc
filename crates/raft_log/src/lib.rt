// The functions of the other crates for C and Rust: numbers, bytes, and rows of words. raft_log.h says what each row and each word is.
//
// Each but the checksum returns a refusal's number, or 0, and sets `answer` at each call.
#![tactic(auto)]

mod locations;
mod reading;
mod writing;

ghost use Rattle.std.specs.Prelude.{◌≡◌, MatchResult, replicate};
ghost use Rattle.refusal.specs.Number.{number_of};
ghost use Rattle.crc.specs.Crc.{crc_of};
ghost use Rattle.codec.specs.Shortest.{shortest};
ghost use Rattle.words.specs.Write.{wrote_at, placed};
ghost use Rattle.log_item.specs.Pieces.{any_number};
ghost use Rattle.item_row.specs.Row.{item_of_row};
ghost use Rattle.log_batch.specs.Body.{read_body};
ghost use Rattle.log_batch.specs.Answers.{check_of, plain_body};
ghost use Rattle.log_batch.specs.Header.{header};
ghost use Rattle.item_row.specs.Reply.{reply};
ghost use Rattle.raft_log.specs.Answers.{number_reply, wrote_reply, header_reply, check_reply, plain_reply, queue_check, view_of, row_mark, mark_word, row_status};

pub use locations::{raft_log_fetch, raft_log_rewrite};
use log_batch::{AtomicGroupStatus, BodyCheck, LogBatch, Mark};
pub use reading::{raft_log_read_batch, raft_log_read_body};
use refusal::{Reason, Refusal};
pub use writing::{raft_log_write_batch, raft_log_write_body};

// The words of an answer and 0; or the number of the reason, and words that are 0.
fn put<const N: usize>(got: Result<[u64; N], Reason>, answer: &mut [u64; N]) -> u32
    ensures { MatchResult got.entry (λ words. reply result answer.new ≡ reply 0 words) (λ r. reply result answer.new ≡ reply (number_of r) (replicate N 0)) }
{
    match got {
        Ok(words) => {
            *answer = words;
            0
        }
        Err(reason) => {
            answer.fill(0);
            reason.number()
        }
    }
}

// The checksum.
#[unsafe(no_mangle)]
pub extern "C" fn raft_log_crc32(data: &[u8]) -> u32
    ensures { result ≡ crc_of «data».now }
{
    crc::crc32(data)
}

// The number at a place, and the place after it.
#[unsafe(no_mangle)]
pub extern "C" fn raft_log_read_number(data: &[u8], at: usize, answer: &mut [u64; 2]) -> u32
    ensures { reply result answer.new ≡ number_reply (any_number «data».now at) }
{
    match codec::decode_var_u64_unrolled(data, at) {
        Ok(number) => put(Ok([number.value, number.next as u64]), answer),
        Err(_) => put(Err(Reason::NumberBroken), answer),
    }
}

// Writes a number at a place, and answers the place after it.
#[unsafe(no_mangle)]
pub extern "C" fn raft_log_write_number(
    number: u64,
    out: &mut [u8],
    at: usize,
    answer: &mut [u64; 1],
) -> u32
    ensures { (reply result answer.new ≡ wrote_reply (wrote_at out.old at (shortest number))) × (out.new ≡ placed out.old at (shortest number)) }
{
    match codec::encode_var_u64_unrolled(number, out, at) {
        Some(next) => put(Ok([next as u64]), answer),
        None => put(Err(Reason::OutputShort), answer),
    }
}

// Offset, length and compression type.
#[unsafe(no_mangle)]
pub extern "C" fn raft_log_read_header(data: &[u8], answer: &mut [u64; 3]) -> u32
    ensures { reply result answer.new ≡ header_reply (header «data».now 0) }
{
    match LogBatch::decode_header(data) {
        Ok(batch) => {
            let words = [
                batch.offset as u64,
                batch.len as u64,
                u64::from(batch.compression),
            ];
            put(Ok(words), answer)
        }
        Err(reason) => put(Err(reason), answer),
    }
}

// What a body holds.
#[unsafe(no_mangle)]
pub extern "C" fn raft_log_check_body(body: &[u8], signature: u32, answer: &mut [u64; 5]) -> u32
    ensures { reply result answer.new ≡ check_reply (check_of (read_body body.now signature)) }
{
    put_check(log_batch::check(body, signature), answer)
}

fn put_check(check: Result<BodyCheck, Refusal>, answer: &mut [u64; 5]) -> u32
    ensures { reply result answer.new ≡ check_reply check }
{
    match check {
        Ok(held) => {
            *answer = [
                0,
                held.items as u64,
                held.entries as u64,
                u64::from(held.total),
                held.next as u64,
            ];
            0
        }
        Err(why) => {
            *answer = [why.item as u64, 0, 0, 0, 0];
            why.number
        }
    }
}

// Whether each number of a body has its shortest spelling.
#[unsafe(no_mangle)]
pub extern "C" fn raft_log_is_plain(body: &[u8], signature: u32, answer: &mut [u64; 2]) -> u32
    ensures { reply result answer.new ≡ plain_reply (plain_body body.now signature) }
{
    match log_batch::plain(body, signature) {
        Ok(plain) => {
            *answer = [0, u64::from(plain)];
            0
        }
        Err(why) => {
            *answer = [why.item as u64, 0];
            why.number
        }
    }
}

// Where the bytes of an entry stand in the block that its row names.
#[unsafe(no_mangle)]
#[tactic(auto, unfolding(crate::specs::Answers::view_of))]
pub extern "C" fn raft_log_entry_view(
    row: &[u64; 6],
    append: &[u8],
    rewrite: &[u8],
    answer: &mut [u64; 2],
) -> u32
    ensures { reply result answer.new ≡ view_of row.now append.now rewrite.now }
{
    let [queue, _, _, long, offset, len] = *row;
    match check_view(queue, long, offset, len, append, rewrite) {
        Ok(()) => put(Ok([offset, len]), answer),
        Err(reason) => put(Err(reason), answer),
    }
}

// Checks an entry against the block that its queue names.
#[tactic(auto, unfolding(crate::specs::Answers::queue_check))]
fn check_view(
    queue: u64,
    long: u64,
    offset: u64,
    len: u64,
    append: &[u8],
    rewrite: &[u8],
) -> Result<(), Reason>
    ensures { result ≡ queue_check queue long offset len append.now rewrite.now }
{
    match queue {
        0 => log_batch::check_entry(append, long, offset, len),
        1 => log_batch::check_entry(rewrite, long, offset, len),
        _ => Err(Reason::TableBroken),
    }
}

// The status that an item row marks.
#[unsafe(no_mangle)]
#[tactic(auto, unfolding(crate::specs::Answers::row_status))]
pub extern "C" fn raft_log_status(row: &[u64; 7], store: &[u8], answer: &mut [u64; 2]) -> u32
    ensures { reply result answer.new ≡ row_status (item_of_row row.now 0) store.now }
{
    match status_of(row, store) {
        Ok(Some(mark)) => put(Ok([mark_word(mark.status), mark.id]), answer),
        Ok(None) => put(Ok([0, 0]), answer),
        Err(reason) => put(Err(reason), answer),
    }
}

fn status_of(row: &[u64; 7], store: &[u8]) -> Result<Option<Mark>, Reason>
    ensures { result ≡ row_mark (item_of_row row.now 0) store.now }
{
    let item = item_row::item_of(row)?;
    AtomicGroupStatus::parse(item, store)
}

fn mark_word(status: AtomicGroupStatus) -> u64
    ensures { result ≡ mark_word status }
{
    match status {
        AtomicGroupStatus::Begin => 1,
        AtomicGroupStatus::Middle => 2,
        AtomicGroupStatus::End => 3,
    }
}
