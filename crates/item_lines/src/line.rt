// A line as it grows: words, and numbers in ten.
ghost use Rattle.std.specs.Prelude.{◌≡◌, ℕ, ◌++◌, ◌+◌, ◌≤◌, List, [], length, take, drop};
ghost use Rattle.words.specs.Write.{wrote_at, placed};
ghost use Rattle.item_lines.specs.Decimal.{decimal};

use std::marker::Model;

// The 128 bytes are more than any line has.
#[derive(Debug, Drop)]
pub(crate) struct Line {
    bytes: [u8; 128],
    len: usize,
}

// Clauses see the bytes so far.
impl Model for Line {
    ghost Value = { List ℕ };

    ghost view = { λ l. take l.len l.bytes };

    ghost invariant = { λ l. l.len ≤ 128 };
}

impl Line {
    pub(crate) fn new() -> Line
        ensures { result ≡ [] }
    {
        Line {
            bytes: [0; 128],
            len: 0,
        }
    }

    // Puts a text behind the line.
    pub(crate) fn push(&mut self, text: &[u8])
        requires { length self.old + length text.now ≤ 128 }
        ensures { self.new ≡ self.old ++ text.now }
    {
        let end = self.len + text.len();
        self.bytes[self.len..end].copy_from_slice(text);
        self.len = end;
    }

    // Puts a label and a number behind the line.
    pub(crate) fn field(&mut self, label: &[u8], n: u64)
        requires { length self.old + length label.now + 20 ≤ 128 }
        ensures text { self.new ≡ self.old ++ label.now ++ decimal n }
        ensures few { length self.new ≤ length self.old + length label.now + 20 }
    {
        let mut digits = [0u8; 20];
        let start = put_digits(n, &mut digits);
        self.push(label);
        self.push(&digits[start..]);
    }

    // Puts the line at a place of out.
    pub(crate) fn put(&self, out: &mut [u8], at: usize) -> Option<usize>
        ensures { (result ≡ wrote_at out.old at self.now) × (out.new ≡ placed out.old at self.now) }
    {
        words::write_bytes(&self.bytes[..self.len], out, at)
    }
}

// Puts the digits of a number at the end of a buffer, and answers where they begin.
fn put_digits(n: u64, digits: &mut [u8; 20]) -> usize
    ensures digits { drop result digits.new ≡ decimal n }
    ensures inside { result ≤ 20 }
{
    let mut i: usize = 19;
    let mut left = n;
    while 10 <= left {
        digits[i] = b'0' + (left % 10) as u8;
        left = left / 10;
        i -= 1;
    }
    digits[i] = b'0' + left as u8;
    i
}
