// An entries item: its count, its first index, and the way over its tails. One tail by itself is read in lib.rt.
ghost use Rattle.std.specs.Prelude.{◌≡◌};
ghost use Rattle.words.specs.Got.{got_of};
ghost use Rattle.log_item.specs.Pieces.{number};
ghost use Rattle.log_item.specs.Reading.{entry_count_of, first_index_of, tail};
ghost use Rattle.log_item.specs.Passing.{as_tail, pass_tails};

use crate::piece::read_number_in;
use crate::{ENTRIES_MAX, EntryIndexes, Form};
use refusal::Reason;
use words::Piece;

// A count of entries, with `used` before them in the batch.
#[tactic(auto, unfolding(crate::specs::Reading::entry_count_of))]
pub(crate) fn read_count(
    buf: &[u8],
    at: usize,
    used: usize,
    form: Form,
) -> Result<Piece<usize>, Reason>
    ensures { got_of result ≡ entry_count_of form buf.now used at }
{
    let Piece { value, next } = read_number_in(buf, at, form)?;
    if ENTRIES_MAX < used || ((ENTRIES_MAX - used) as u64) < value {
        return Err(Reason::EntriesTooMany);
    }
    Ok(Piece {
        value: value as usize,
        next,
    })
}

// The first index of `count` entries, where there are any.
#[tactic(auto, unfolding(crate::specs::Reading::first_index_of))]
pub(crate) fn read_first_index(
    buf: &[u8],
    at: usize,
    count: usize,
    form: Form,
) -> Result<Piece<EntryIndexes>, Reason>
    ensures { got_of result ≡ first_index_of form buf.now count at }
{
    if count == 0 {
        return Ok(Piece {
            value: EntryIndexes {
                count: 0,
                first_index: 0,
            },
            next: at,
        });
    }
    let Piece {
        value: first_index,
        next,
    } = read_number_in(buf, at, form)?;
    if u64::MAX - first_index < (count - 1) as u64 {
        return Err(Reason::IndexTooLarge);
    }
    Ok(Piece {
        value: EntryIndexes { count, first_index },
        next,
    })
}

// Goes over `count` tails: the total and the place after them.
#[tactic(auto, using(crate::proofs::Counted::pass_end, crate::proofs::Counted::pass_next))]
pub(crate) fn skip_tails(
    buf: &[u8],
    at: usize,
    count: usize,
    before: u32,
    form: Form,
) -> Result<Piece<u32>, Reason>
    ensures { got_of result ≡ pass_tails form buf.now count before at }
{
    let mut last = Piece {
        value: before,
        next: at,
    };
    for _ in 0..count {
        last = read_tail(buf, last.next, last.value, form)?;
    }
    Ok(last)
}

// The tail at a place, with the total `before` it.
#[tactic(auto, unfolding(crate::specs::Reading::tail, crate::specs::Passing::as_tail))]
fn read_tail(buf: &[u8], at: usize, before: u32, form: Form) -> Result<Piece<u32>, Reason>
    ensures { got_of result ≡ tail form buf.now before at }
{
    as_tail(read_short(buf, at, form)?, before)
}

// The tail that a number is, with the total `before` it.
#[tactic(auto, unfolding(crate::specs::Passing::as_tail))]
pub(crate) fn as_tail(number: Piece<u64>, before: u32) -> Result<Piece<u32>, Reason>
    ensures { got_of result ≡ as_tail before number.value number.next }
{
    let value = u32::try_from(number.value).map_err(|_| Reason::TailTooLarge)?;
    if value < before {
        return Err(Reason::TailFalls);
    }
    Ok(Piece {
        value,
        next: number.next,
    })
}

// The number at a place, quicker for two and three bytes, as most tails have.
fn read_short(buf: &[u8], at: usize, form: Form) -> Result<Piece<u64>, Reason>
    ensures { got_of result ≡ number form buf.now at }
{
    if let Form::Any = form {
        if let Some([a, b, c, ..]) = buf.get(at..) {
            let [a, b, c] = [u64::from(*a), u64::from(*b), u64::from(*c)];
            if 128 <= a {
                if b < 128 {
                    return Ok(Piece {
                        value: a - 128 + (b << 7),
                        next: at + 2,
                    });
                }
                if c < 128 {
                    return Ok(Piece {
                        value: a - 128 + ((b - 128) << 7) + (c << 14),
                        next: at + 3,
                    });
                }
            }
        }
    }
    read_number_in(buf, at, form)
}
