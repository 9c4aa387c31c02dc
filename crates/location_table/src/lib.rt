// Tables of at most 64 locations, by value: what calls these functions holds no slice of locations, and is covered. Each lends its
// arrays to the function of memtable that has its name.
#![tactic(auto)]

ghost use Rattle.std.specs.Prelude.{◌≡◌};
ghost use Rattle.location_table.specs.Values.{in_reach, rewrite_value, rows_value, fetch_value};

use location_rules::{Fetched, Rewritten, Table};
use pipe_log::Location;
use refusal::Reason;

// Rows by value: the first `len` of these.
#[derive(Clone, Copy, Debug, PartialEq, Eq)]
pub struct Rows {
    pub all: [Location; 64],
    pub len: usize,
}

// What a rewrite by value leaves: its answer, and the rows after it.
#[derive(Clone, Copy, Debug, PartialEq, Eq)]
pub struct AfterRewrite {
    pub answer: Result<Rewritten, Reason>,
    pub rows: Rows,
}

// A rewrite of these rows by the incoming ones. More than 64 of either: 21, and the rows as they were.
#[tactic(auto, unfolding(crate::specs::Values::rewrite_value, crate::specs::Values::rows_value))]
pub fn rewrite(
    rows: Rows,
    table: Table,
    incoming: Rows,
    first: u64,
    gate: Option<u64>,
) -> AfterRewrite
    ensures { result ≡ record { answer = rewrite_value rows table incoming first gate; rows = rows_value rows table incoming first gate } }
{
    let len = rows.len;
    let many = incoming.len;
    if !in_reach(len, many) {
        return AfterRewrite {
            answer: Err(Reason::OutputShort),
            rows,
        };
    }
    let mut all = rows.all;
    let coming = incoming.all;
    let answer = memtable::rewrite(&mut all[..len], table, &coming[..many], first, gate);
    AfterRewrite {
        answer,
        rows: Rows { all, len },
    }
}

// The fetch before a gate of these rows. More than 64: 21.
#[tactic(auto, unfolding(crate::specs::Values::fetch_value))]
pub fn fetch_entry_indexes_before(rows: Rows, table: Table, gate: u64) -> Result<Fetched, Reason>
    ensures { result ≡ fetch_value rows table gate }
{
    if !in_reach(rows.len, 0) {
        return Err(Reason::OutputShort);
    }
    let all = rows.all;
    memtable::fetch_entry_indexes_before(&all[..rows.len], table, gate)
}

// Whether neither n rows nor m others are more than 64.
fn in_reach(n: usize, m: usize) -> bool
    ensures { result ≡ in_reach n m }
{
    n <= 64 && m <= 64
}
