// A key item: its op, its key and, where it is a put, its content.
ghost use Rattle.std.specs.Prelude.{◌≡◌};
ghost use Rattle.words.specs.Got.{got_of};
ghost use Rattle.log_item.specs.Reading.{put_at, key_value_of};

use crate::piece::{read_byte, read_span};
use crate::{Form, KeyValue, Op};
use refusal::Reason;
use words::Piece;

impl KeyValue {
    #[tactic(auto, unfolding(crate::specs::Reading::key_value_of))]
    pub(crate) fn decode(buf: &[u8], at: usize, form: Form) -> Result<Piece<KeyValue>, Reason>
        ensures { got_of result ≡ key_value_of form buf.now at }
    {
        let op = read_byte(buf, at)?;
        match op.value {
            1 => read_put(buf, op.next, form),
            2 => {
                let key = read_span(buf, op.next, form)?;
                Ok(Piece {
                    value: KeyValue {
                        key: key.value,
                        op: Op::Del,
                    },
                    next: key.next,
                })
            }
            _ => Err(Reason::OpUnknown),
        }
    }
}

// A key and its content.
#[tactic(auto, unfolding(crate::specs::Reading::put_at))]
fn read_put(buf: &[u8], at: usize, form: Form) -> Result<Piece<KeyValue>, Reason>
    ensures { got_of result ≡ put_at form buf.now at }
{
    let key = read_span(buf, at, form)?;
    let content = read_span(buf, key.next, form)?;
    Ok(Piece {
        value: KeyValue {
            key: key.value,
            op: Op::Put {
                value: content.value,
            },
        },
        next: content.next,
    })
}
