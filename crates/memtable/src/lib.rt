// The locations of a Raft group's entries: the rewrite of rows, and the fetch of those before a gate. From memtable.rs, rewrite and
// fetch_entry_indexes_before. What looks at no list of rows is in location_rules.
#![tactic(auto)]

ghost use Rattle.std.specs.Prelude.{◌≡◌, ℕ, ◌+◌, ◌-◌, Bool, true, ◌&&◌, List, length, take, drop, nat_le, if◌then◌else◌};
ghost use Rattle.std.proofs.Math.Seq.{paste, paste-zero};
ghost use Rattle.pipe_log.specs.declared.Location.{Location};
ghost use Rattle.memtable.specs.Rows.{run_of};
ghost use Rattle.location_rules.specs.Decisions.{outcome};
ghost use Rattle.memtable.specs.Table.{well_formed, ready};
ghost use Rattle.memtable.specs.Rewriting.{start_place, start_from, rewrite_in, Rewrote};
ghost use Rattle.memtable.specs.Fetching.{fetch_of, fetch_in};

use location_rules::{Fetched, Rewritten, Stop, Table};
use pipe_log::Location;
use refusal::Reason;

// How rows lie in a slice: each is a location, or a few words.
pub trait Layout {
    type Cell;

    // the locations that the rows are
    ghost located: { List Self.Cell → List Location };

    // whether each row is a location's
    ghost whole: { List Self.Cell → Bool };

    // the cells once k rows of the second slice, those from `from` on, are put in the place of rows of the first from start on
    ghost put: { List Self.Cell → ℕ → List Self.Cell → ℕ → ℕ → List Self.Cell };

    // How many rows there are.
    fn count(rows: &[Self::Cell]) -> usize
        ensures { result ≡ length (located rows.now) };

    // Whether each row is a location's.
    fn is_whole(rows: &[Self::Cell]) -> bool
        ensures { result ≡ whole rows.now };

    // Where the first row that stops the run stands, from lo on and before hi; where none does, hi, or the end of the rows where that comes
    // first; where no row lies there, lo.
    fn scan(rows: &[Self::Cell], lo: usize, hi: usize, stop: Stop) -> usize
        ensures { result ≡ lo + run_of stop (take (hi - lo) (drop lo (located rows.now))) };

    // Puts k incoming rows, those from `from` on, in the place of the rows from start on. Where there are fewer of either, no cell changes.
    fn replace(
        rows: &mut [Self::Cell],
        incoming: &[Self::Cell],
        start: usize,
        from: usize,
        k: usize,
    )
        ensures { rows.new ≡ if nat_le (start + k) (length (located rows.old)) && nat_le (from + k) (length (located incoming.now))
            then put rows.old start incoming.now from k
            else rows.old };

    // Where no row is put, the cells are as they were.
    ghost put_none: { (rows incoming : List Self.Cell) (start from : ℕ) → rows ≡ put rows start incoming from 0 };
}

// Rows that are records.
struct Records;

impl Layout for Records {
    type Cell = Location;

    ghost located = { λ rows. rows };

    ghost whole = { λ rows. true };

    ghost put = { λ rows start incoming from k. paste rows start (drop from incoming) k };

    ghost put_none = { λ rows incoming start from. paste-zero rows start (drop from incoming) };

    fn count(rows: &[Location]) -> usize {
        rows.len()
    }

    fn is_whole(_rows: &[Location]) -> bool {
        true
    }

    fn scan(rows: &[Location], lo: usize, hi: usize, stop: Stop) -> usize {
        let end = hi.min(rows.len());
        if end <= lo {
            return lo;
        }
        let first = rows[lo..end]
            .iter()
            .position(|row| location_rules::stops(*row, stop));
        match first {
            Some(i) => lo + i,
            None => end,
        }
    }

    fn replace(rows: &mut [Location], incoming: &[Location], start: usize, from: usize, k: usize) {
        let (n, m) = (rows.len(), incoming.len());
        if start <= n && k <= n - start && from <= m && k <= m - from {
            rows[start..start + k].copy_from_slice(&incoming[from..from + k]);
        }
    }
}

// Replaces the rows that overlap the incoming ones, from the overlap's start until its end or the first stop. The incoming rows are
// consecutive from the index `first` on. A refused rewrite changes no row.
#[tactic(auto, unfolding(crate::specs::Rewriting::rewrite_in, crate::specs::Rewriting::rewrite_of, crate::specs::Rewriting::rows_after))]
pub fn rewrite(
    rows: &mut [Location],
    table: Table,
    incoming: &[Location],
    first: u64,
    gate: Option<u64>,
) -> Result<Rewritten, Reason>
    ensures { Rewrote rows.old table incoming.now first gate result rows.new }
{
    rewrite_in::<Records>(rows, table, incoming, first, gate)
}

// The longest run of rows from the rewritten count on with file number at most the gate.
#[tactic(auto, unfolding(crate::specs::Fetching::fetch_in, crate::specs::Fetching::fetch_of))]
pub fn fetch_entry_indexes_before(
    rows: &[Location],
    table: Table,
    gate: u64,
) -> Result<Fetched, Reason>
    ensures { result ≡ fetch_of rows.now table gate }
{
    fetch_in::<Records>(rows, table, gate)
}

// The rewrite of rows that lie in any way. A row of the table that is no location's is a 26, an incoming one a 27.
pub fn rewrite_in<L: Layout>(
    rows: &mut [L::Cell],
    table: Table,
    incoming: &[L::Cell],
    first: u64,
    gate: Option<u64>,
) -> Result<Rewritten, Reason>
    ensures answer { result ≡ rewrite_in (L.whole rows.old) (L.located rows.old) table (L.whole incoming.now) (L.located incoming.now) first gate }
    ensures after { rows.new ≡ L.put rows.old (start_place table first) incoming.now (start_from table first) (outcome result table.count).replaced }
{
    let good = is_well_formed::<L>(rows, table);
    let ready = is_ready::<L>(incoming, first);
    let over = location_rules::overlap_of(table.first, L::count(rows), first, L::count(incoming));
    let stop = location_rules::stop_of(gate);
    let end = L::scan(rows, over.start, over.end, stop);
    let answer = location_rules::decide(good, ready, table, over, end, gate)?;
    L::replace(rows, incoming, over.start, over.from, answer.replaced);
    Ok(answer)
}

// The fetch from rows that lie in any way. A row that is no location's is a 26.
pub fn fetch_in<L: Layout>(rows: &[L::Cell], table: Table, gate: u64) -> Result<Fetched, Reason>
    ensures { result ≡ fetch_in (L.whole rows.now) (L.located rows.now) table gate }
{
    if !is_well_formed::<L>(rows, table) {
        return Err(Reason::TableBroken);
    }
    let n = L::count(rows);
    let start = table.count.min(n);
    let end = L::scan(rows, start, n, Stop::Above(gate));
    location_rules::run_from(true, table, start, end)
}

// Whether each row is a location's, and the table is well formed. A count behind the rows, or a row that is no location's, ends it.
fn is_well_formed<L: Layout>(rows: &[L::Cell], table: Table) -> bool
    ensures { result ≡ (L.whole rows.now && well_formed (L.located rows.now) table) }
{
    let n = L::count(rows);
    if n < table.count {
        return false;
    }
    if !L::is_whole(rows) {
        return false;
    }
    let front = L::scan(rows, 0, table.count, Stop::Append);
    let back = L::scan(rows, table.count, n, Stop::Rewrite);
    location_rules::is_formed(table, n, front, back)
}

// Whether each incoming row is a location's, and they are taken.
fn is_ready<L: Layout>(rows: &[L::Cell], first: u64) -> bool
    ensures { result ≡ (L.whole rows.now && ready (L.located rows.now) first) }
{
    if !L::is_whole(rows) {
        return false;
    }
    let n = L::count(rows);
    let wrong = L::scan(rows, 0, n, Stop::Append);
    location_rules::is_ready(wrong, n, first)
}
