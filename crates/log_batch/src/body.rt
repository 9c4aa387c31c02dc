// What a body holds, without a table: reading it item by item, and whether each of its numbers has the shortest spelling. From log_batch.rs,
// LogItemBatch::decode.
ghost use Rattle.std.specs.Prelude.{◌≡◌};
ghost use Rattle.words.specs.Got.{got_of};
ghost use Rattle.log_batch.specs.Reading.{items, count, read_items};
ghost use Rattle.log_batch.specs.Body.{read_body};
ghost use Rattle.log_batch.specs.Answers.{check_of, plain_body};

use crate::seal::check_seal;
use crate::{BodyCheck, LogBatch};
use log_item::{Form, LogItem, NotPassed};
use refusal::{Reason, Refusal};
use words::Piece;

// What a body without its footer holds, with no table.
pub fn check_items(buf: &[u8]) -> Result<BodyCheck, Refusal>
    ensures { result ≡ check_of (read_items Form.Any buf.now) }
{
    check_form(buf, Form::Any)
}

// What a body with its footer holds, under a signature, with no table.
#[tactic(auto, unfolding(crate::specs::Body::read_body), using(crate::proofs::Sealing::seal_long))]
pub fn check(body: &[u8], signature: u32) -> Result<BodyCheck, Refusal>
    ensures { result ≡ check_of (read_body body.now signature) }
{
    check_seal(body, signature)?;
    let n = body.len() - LogBatch::CHECKSUM_LEN;
    check_form(&body[..n], Form::Any)
}

// Whether each number of a body has its shortest spelling.
#[tactic(auto, unfolding(crate::specs::Answers::plain_body), using(crate::proofs::Checking::accepted_long))]
pub fn plain(body: &[u8], signature: u32) -> Result<bool, Refusal>
    ensures { result ≡ plain_body body.now signature }
{
    check(body, signature)?;
    let n = body.len() - LogBatch::CHECKSUM_LEN;
    Ok(check_form(&body[..n], Form::Plain).is_ok())
}

// What a body without its footer holds, where its numbers are asked for in a form.
#[tactic(auto, unfolding(crate::specs::Reading::read_items))]
fn check_form(buf: &[u8], form: Form) -> Result<BodyCheck, Refusal>
    ensures { result ≡ check_of (read_items form buf.now) }
{
    let count = read_item_count(buf, form)?;
    check_from(buf, count.next, count.value as usize, form)
}

// How many items a body without its footer says that it has.
#[tactic(auto, unfolding(crate::specs::Reading::count, log_item::specs::Pieces::number))]
pub(crate) fn read_item_count(buf: &[u8], form: Form) -> Result<Piece<u64>, Reason>
    ensures { got_of result ≡ count form buf.now 0 }
{
    let count = log_item::read_number(buf, 0)?;
    if let Form::Plain = form {
        if count.next != codec::var_u64_len(count.value) {
            return Err(Reason::NotShortest);
        }
    }
    if 256 < count.value {
        return Err(Reason::ItemsTooMany);
    }
    Ok(count)
}

// What `count` items from a place on hold, with nothing before them.
fn check_from(buf: &[u8], start: usize, count: usize, form: Form) -> Result<BodyCheck, Refusal>
    ensures { result ≡ check_of (items form buf.now count 0 0 0 start) }
{
    let mut at = start;
    let mut total: u32 = 0;
    let mut used: usize = 0;
    for i in 0..count {
        match LogItem::pass(buf, at, total, used, form) {
            Ok(passed) => {
                at = passed.next;
                total = passed.value.total;
                used = passed.value.used;
            }
            Err(NotPassed::Refused(reason)) => return Err(Refusal::new(reason, i)),
            // no caller of this crate sees this reason: plain answers false
            Err(NotPassed::Padded) => return Err(Refusal::new(Reason::NotShortest, i)),
        }
    }
    Ok(BodyCheck {
        items: count,
        entries: used,
        total,
        next: at,
    })
}
