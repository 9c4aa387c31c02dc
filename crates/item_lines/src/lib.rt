// The lines of the program itemlist, each put at a place of a lent buffer.
//
// Every public function takes any arguments: a place may lie past the end, and a line that has no room is not begun.
#![tactic(auto)]

mod line;

ghost use Rattle.std.specs.Prelude.{◌≡◌};
ghost use Rattle.words.specs.Write.{wrote_at, placed};
ghost use Rattle.item_lines.specs.Line.{item_line, command_line, key_line, entry_line, sums_line, refused_line};

use line::Line;
use log_item::{Command, EntryIndex, KeyValue, LogItem, LogItemContent, Op};

// Puts the line of a command or a key; of entries nothing, since their lines are those of their rows.
#[tactic(auto, unfolding(crate::specs::Line::content_line))]
pub fn item_line(item: LogItem, out: &mut [u8], at: usize) -> Option<usize>
    ensures { (result ≡ wrote_at out.old at (item_line item)) × (out.new ≡ placed out.old at (item_line item)) }
{
    match item.content {
        LogItemContent::EntryIndexes(_) => Line::new().put(out, at),
        LogItemContent::Command(command) => {
            command_line(item.raft_group_id, command).put(out, at)
        }
        LogItemContent::Kv(kv) => key_line(item.raft_group_id, kv).put(out, at),
    }
}

fn command_line(group: u64, command: Command) -> Line
    ensures { result ≡ command_line group command }
{
    let mut line = Line::new();
    line.field(b"", group);
    match command {
        Command::Clean => {
            line.push(b" clean\n");
            line
        }
        Command::Compact { index } => {
            line.field(b" compact ", index);
            line.push(b"\n");
            line
        }
    }
}

fn key_line(group: u64, kv: KeyValue) -> Line
    ensures { result ≡ key_line group kv }
{
    let mut line = Line::new();
    line.field(b"", group);
    match kv.op {
        Op::Put { value } => {
            line.field(b" put ", kv.key.len as u64);
            line.field(b" ", value.len as u64);
            line.push(b"\n");
            line
        }
        Op::Del => {
            line.field(b" del ", kv.key.len as u64);
            line.push(b"\n");
            line
        }
    }
}

// Puts the line of an entry of a group.
pub fn entry_line(group: u64, row: EntryIndex, out: &mut [u8], at: usize) -> Option<usize>
    ensures { (result ≡ wrote_at out.old at (entry_line group row)) × (out.new ≡ placed out.old at (entry_line group row)) }
{
    let mut line = Line::new();
    line.field(b"", group);
    line.field(b" entry ", row.index);
    line.field(b" ", u64::from(row.entry_offset));
    line.field(b" ", u64::from(row.entry_len));
    line.push(b"\n");
    line.put(out, at)
}

// Puts the line of a list's sums: how many items and entries it has, and how many bytes the entries have together.
pub fn sums_line(items: u64, entries: u64, bytes: u64, out: &mut [u8], at: usize) -> Option<usize>
    ensures { (result ≡ wrote_at out.old at (sums_line items entries bytes)) × (out.new ≡ placed out.old at (sums_line items entries bytes)) }
{
    let mut line = Line::new();
    line.field(b"items ", items);
    line.field(b" entries ", entries);
    line.field(b" bytes ", bytes);
    line.push(b"\n");
    line.put(out, at)
}

// Puts the line of a refusal: a number, whichever it is, and an item.
pub fn refused_line(number: u32, item: usize, out: &mut [u8], at: usize) -> Option<usize>
    ensures { (result ≡ wrote_at out.old at (refused_line number item)) × (out.new ≡ placed out.old at (refused_line number item)) }
{
    let mut line = Line::new();
    line.field(b"refused ", u64::from(number));
    line.field(b" ", item as u64);
    line.push(b"\n");
    line.put(out, at)
}
