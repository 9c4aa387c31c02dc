// The rewrite and the fetch of locations, on rows of six words that the caller lends, laid out as raft_log.h says. Words that do not make up a
// whole row at the end are not looked at and not written.
#![tactic(auto)]

ghost use Rattle.std.specs.Prelude.{◌≡◌, ◌*◌, drop};
ghost use Rattle.std.proofs.Math.Seq.{paste, paste-zero};
ghost use Rattle.location_rules.specs.Row.{stops_at, row_start};
ghost use Rattle.location_rows.specs.Words.{location_count, queue_of, are_rows, located};
ghost use Rattle.location_rows.specs.Answers.{RowsRewritten, fetch_words};

use location_rules::{Fetched, Rewritten, Stop, Table};
use memtable::Layout;
use pipe_log::{Location, LogQueue};
use refusal::Reason;

// Rows that are six words each.
struct Words;

impl Layout for Words {
    type Cell = u64;

    ghost located = { located };

    ghost whole = { λ words. are_rows (location_count words) words };

    ghost put = { λ words start incoming from k. paste words (start * 6) (drop (from * 6) incoming) (k * 6) };

    ghost put_none = { λ words incoming start from. paste-zero words (start * 6) (drop (from * 6) incoming) };

    #[tactic(auto, using(crate::proofs::Rows::located_length))]
    fn count(words: &[u64]) -> usize {
        words.len() / 6
    }

    fn is_whole(words: &[u64]) -> bool {
        for row in words.chunks_exact(6) {
            if 1 < row[0] {
                return false;
            }
        }
        true
    }

    #[tactic(auto, using(crate::proofs::Rows::rows_room))]
    fn scan(words: &[u64], lo: usize, hi: usize, stop: Stop) -> usize {
        let end = hi.min(Self::count(words));
        for i in lo..end {
            let at = i * 6;
            if stops(words[at], words[at + 1], stop) {
                return i;
            }
        }
        end.max(lo)
    }

    // By a loop, and no copying of slices, for which the library for C would need memmove from outside.
    #[tactic(auto, using(crate::proofs::Rows::rows_room))]
    fn replace(words: &mut [u64], incoming: &[u64], start: usize, from: usize, k: usize) {
        let (n, m) = (Self::count(words), Self::count(incoming));
        if start <= n && k <= n - start && from <= m && k <= m - from {
            let (at, with, len) = (start * 6, from * 6, k * 6);
            for i in 0..len {
                words[at + i] = incoming[with + i];
            }
        }
    }
}

// Replaces rows of a table by incoming ones, up to the first stop. A refused rewrite changes no word.
pub fn rewrite(
    rows: &mut [u64],
    table: Table,
    incoming: &[u64],
    first: u64,
    gate: Option<u64>,
) -> Result<Rewritten, Reason>
    ensures { RowsRewritten rows.old table incoming.now first gate result rows.new }
{
    memtable::rewrite_in::<Words>(rows, table, incoming, first, gate)
}

// The longest run of rows from the rewritten count on with file number at most the gate.
#[tactic(auto, using(crate::proofs::Rewrites::fetch_is))]
pub fn fetch(rows: &[u64], table: Table, gate: u64) -> Result<Fetched, Reason>
    ensures { result ≡ fetch_words rows.now table gate }
{
    memtable::fetch_in::<Words>(rows, table, gate)
}

// Whether the row of this queue and file number ends the run.
fn stops(queue: u64, seq: u64, stop: Stop) -> bool
    ensures { result ≡ stops_at stop (row_start (queue_of queue) seq) }
{
    let row = Location {
        queue: queue_of(queue),
        seq,
        offset: 0,
        len: 0,
        entry_offset: 0,
        entry_len: 0,
    };
    location_rules::stops(row, stop)
}

#[tactic(auto, using(crate::proofs::Scans::rewrite_queue))]
fn queue_of(queue: u64) -> LogQueue
    ensures { result ≡ queue_of queue }
{
    if queue == 0 {
        return LogQueue::Append;
    }
    LogQueue::Rewrite
}
