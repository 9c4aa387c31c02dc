// The smallest pieces of an item, each read at a place: a number, a byte, a span.
ghost use Rattle.std.specs.Prelude.{◌≡◌};
ghost use Rattle.words.specs.Got.{got_of};
ghost use Rattle.log_item.specs.Pieces.{number, byte, span};

use crate::{Form, Span};
use refusal::Reason;
use words::Piece;

// A length and as many bytes: where these stand.
#[tactic(auto, using(crate::proofs::NumberGot::number_inside), unfolding(crate::specs::Pieces::span))]
pub(crate) fn read_span(buf: &[u8], at: usize, form: Form) -> Result<Piece<Span>, Reason>
    ensures { got_of result ≡ span form buf.now at }
{
    let Piece { value: len, next } = read_number_in(buf, at, form)?;
    if ((buf.len() - next) as u64) < len {
        return Err(Reason::SpanOutside);
    }
    let len = len as usize;
    Ok(Piece {
        value: Span { at: next, len },
        next: next + len,
    })
}

// The number at a place, in any permitted spelling.
#[tactic(auto, unfolding(crate::specs::Pieces::number))]
pub fn read_number(buf: &[u8], at: usize) -> Result<Piece<u64>, Reason>
    ensures { got_of result ≡ number Form.Any buf.now at }
{
    codec::decode_var_u64(buf, at).map_err(|_| Reason::NumberBroken)
}

// The number at a place, in the form asked for.
#[tactic(auto, unfolding(crate::specs::Pieces::number))]
pub(crate) fn read_number_in(buf: &[u8], at: usize, form: Form) -> Result<Piece<u64>, Reason>
    ensures { got_of result ≡ number form buf.now at }
{
    let n = read_number(buf, at)?;
    if let Form::Plain = form {
        if n.next - at != codec::var_u64_len(n.value) {
            return Err(Reason::NotShortest);
        }
    }
    Ok(n)
}

// The byte at a place.
#[tactic(auto, unfolding(crate::specs::Pieces::byte))]
pub(crate) fn read_byte(buf: &[u8], at: usize) -> Result<Piece<u8>, Reason>
    ensures { got_of result ≡ byte buf.now at }
{
    let value = *buf.get(at).ok_or(Reason::NumberBroken)?;
    Ok(Piece {
        value,
        next: at + 1,
    })
}
