// The cases of standard input. A line is a kind, most often a name, and words in hex, `-` for no bytes; a line of another kind is passed
// over.
//
//     crc NAME BYTES
//     number N                                                    written and read, then padded to each longer form
//     read BYTES                                                  a number at their start
//     big N                                                       a word of 64 bits, big-endian
//     u64 AT N BYTES                                              the big-endian word at a place of the bytes, and N written there
//     little N                                                    a word of 32 bits, little-endian
//     header NAME BYTES
//     items NAME SIGNATURE BYTES                                  a body, whose footer is put behind it here
//     footed NAME SIGNATURE BYTES                                 a body with its footer
//     plain NAME BYTES                                            the same, unsigned, asked for its form
//     go NAME BYTES                                               a body without footer, gone over without a table
//     display NAME AT BYTES                                       the lines that itemlist has for a body without footer, each put at a
//                                                                 place of 128 bytes
//     whole NAME SIGNATURE BYTES                                  a whole batch
//     view NAME QUEUE LENGTH PLACE ENTRYLENGTH APPEND REWRITE     queue 0 is append, and both blocks are lent
//     status NAME LENT BYTES                                      an item, and how many of its bytes are lent
//     encode NAME WRITER KEYS SIGNATURE OTHER ROOM CONTENT BODY EDITS
//                                                                 the table of a body without footer, edited (edits.rt), then written by
//                                                                 the writer of a body or a whole batch, keys checked or unchecked, into
//                                                                 so much room, and read back under the other signature
//     alone NAME AT TOTAL LENT ROWS LENGTH LENGTH BYTES           an item, of whose bytes so many are lent as the store, written at a place
//                                                                 of 32 bytes, with the total before it and one of the two lengths or
//                                                                 both; and then its content by itself
//     memtable NAME FIRST COUNT ROWS CALLS                        a table of locations (locations.rt), and calls on it, each on what the
//                                                                 one before it left: rewrite GATE FIRST ROWS, the gate `-` for none,
//                                                                 and fetch GATE
//     open NAME SIGNATURE CALLS BYTES                             a body with its footer, stepped through by so many steps, and then one
//                                                                 call of nth, a third of the way
//     jump NAME AT TOTAL USED ITEM COUNT CALLS BYTES              a cursor made of these numbers, stepped so many times in such a body
//     tail NAME BYTES OTHER                                       the first item of such a body, its rows read in the other
ghost use Rattle.std.specs.Prelude.{◌≤◌, IfOk, length};

use crate::{
    alone, bodies, headers, listings, number, rewrites, statuses, steps, sums, views, writes,
};
use std::io::{self, Read};

// Longer input is taken as cut there.
pub(crate) fn run(rt: &(impl Input + Print)) -> io::Result<()> {
    let mut text = [0u8; 65_536];
    let n = read_full(rt, &mut text)?;
    lines(rt, &text[..n])
}

// Reads standard input to its end, or until the buffer is full.
fn read_full(rt: &impl Input, buf: &mut [u8]) -> io::Result<usize>
    ensures { IfOk result (λ n. n ≤ length buf.new) }
{
    let mut reader = rt.reader();
    let mut n = 0;
    while n < buf.len() {
        let more = reader.read(&mut buf[n..])?;
        if more == 0 {
            break;
        }
        n += more;
    }
    Ok(n)
}

fn lines(rt: &impl Print, text: &[u8]) -> io::Result<()> {
    let mut at = 0;
    while at < text.len() {
        let end = line::find(text, at, b'\n');
        if text.len() <= end {
            return Ok(());
        }
        case(rt, line::part(text, at, end))?;
        at = end + 1;
    }
    Ok(())
}

fn case(rt: &impl Print, line: &[u8]) -> io::Result<()> {
    match line::first_letter(line) {
        b'a' => alone::case(rt, line),
        b'c' => sums::case(rt, line),
        b'n' => number::number(rt, line),
        b'r' => number::bytes(rt, line),
        b'b' => number::big(rt, line),
        b'u' => number::place(rt, line),
        b'l' => number::little(rt, line),
        b'h' => headers::case(rt, line),
        b'i' | b'f' | b'w' => bodies::case(rt, line),
        b'p' => bodies::plain(rt, line),
        b'g' => bodies::go_over(rt, line),
        b'v' => views::case(rt, line),
        b's' => statuses::case(rt, line),
        b'e' => writes::case(rt, line),
        b'd' => listings::case(rt, line),
        b'm' => rewrites::case(rt, line),
        b'o' => steps::case(rt, line),
        b'j' => steps::jump(rt, line),
        b't' => steps::tail(rt, line),
        _ => Ok(()),
    }
}
