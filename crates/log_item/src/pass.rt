// Going over an item without making it: by the readers of its group number, its type, its content and its tails, with the item left out.
ghost use Rattle.std.specs.Prelude.{◌≡◌};
ghost use Rattle.words.specs.Got.{got_of};
ghost use Rattle.log_item.specs.Answers.{passed_of, pass_item, not_passed};
ghost use Rattle.log_item.specs.Passing.{pass_entries, pass_content};

use crate::entries::{read_count, read_first_index, skip_tails};
use crate::piece::{read_byte, read_number_in};
use crate::{Command, Form, KeyValue, LogItem, NotPassed, Passed};
use refusal::Reason;
use words::Piece;

impl LogItem {
    // Goes over the item at a place: what decode answers but the item and the place of its tails, and in a form. It is quicker than
    // decode, since no item is handed back.
    pub fn pass(
        buf: &[u8],
        at: usize,
        total: u32,
        used: usize,
        form: Form,
    ) -> Result<Piece<Passed>, NotPassed>
        ensures { result ≡ passed_of (pass_item form buf.now used total at) }
    {
        pass_item(buf, at, Passed { total, used }, form).map_err(NotPassed::from)
    }
}

// A padded number, which pass_item refuses, is a case of its own.
impl From<Reason> for NotPassed {
    ghost from_gives = { λ r e. e ≡ not_passed r };

    fn from(reason: Reason) -> NotPassed {
        match reason {
            Reason::NotShortest => NotPassed::Padded,
            _ => NotPassed::Refused(reason),
        }
    }
}

// The item at a place, behind what came before it. A padded number is refused with NotShortest here and below.
#[tactic(auto, using(crate::proofs::Passing::passed_item), unfolding(crate::specs::Answers::pass_item, crate::specs::Answers::counted_item, crate::specs::Reading::head))]
fn pass_item(buf: &[u8], at: usize, before: Passed, form: Form) -> Result<Piece<Passed>, Reason>
    ensures { got_of result ≡ pass_item form buf.now before.used before.total at }
{
    let group = read_number_in(buf, at, form)?;
    let kind = read_byte(buf, group.next)?;
    pass_content(buf, kind.next, before, kind.value, form)
}

// The content of an item of a type, and its tails. After a command or a key the total and the number of entries are as before.
#[tactic(auto, using(crate::proofs::Passing::passed_entries), unfolding(crate::specs::Passing::pass_content, crate::specs::Passing::pass_tails, crate::specs::Reading::content, crate::specs::Reading::tails))]
fn pass_content(
    buf: &[u8],
    at: usize,
    before: Passed,
    kind: u8,
    form: Form,
) -> Result<Piece<Passed>, Reason>
    ensures { got_of result ≡ pass_content form buf.now before.used before.total kind at }
{
    let next = match kind {
        1 => return pass_entries(buf, at, before, form),
        2 => Command::decode(buf, at, form)?.next,
        3 => KeyValue::decode(buf, at, form)?.next,
        _ => return Err(Reason::ItemTypeUnknown),
    };
    Ok(Piece {
        value: before,
        next,
    })
}

// A count of entries, their first index and their tails. The readers of EntryIndexes::decode are called one by one: each by itself is
// small enough to be compiled in line here and there.
#[tactic(auto, using(crate::proofs::Known::count_known, crate::proofs::Known::first_count), unfolding(crate::specs::Passing::pass_entries, crate::specs::Reading::entry_indexes))]
fn pass_entries(buf: &[u8], at: usize, before: Passed, form: Form) -> Result<Piece<Passed>, Reason>
    ensures { got_of result ≡ pass_entries form buf.now before.used before.total at }
{
    let count = read_count(buf, at, before.used, form)?;
    let entries = read_first_index(buf, count.next, count.value, form)?;
    let last = skip_tails(buf, entries.next, entries.value.count, before.total, form)?;
    Ok(Piece {
        value: Passed {
            total: last.value,
            used: before.used + entries.value.count,
        },
        next: last.next,
    })
}
