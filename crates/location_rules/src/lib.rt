// The rules of one row and of one table of locations, and what a rewrite and a fetch before a gate answer by numbers alone: where the rows
// overlap, how many are replaced, the count, the run. They look at no list of rows: memtable asks them of records that lie in a row, and
// location_rows of words. From memtable.rs, rewrite and fetch_entry_indexes_before.
#![tactic(auto)]

ghost use Rattle.std.specs.Prelude.{◌≡◌, ◌+◌, ◌-◌, ◌<◌};
ghost use Rattle.location_rules.specs.Row.{stops_at, stop_of};
ghost use Rattle.location_rules.specs.Parts.{indexes_fit, well_formed_by, ready_by};
ghost use Rattle.location_rules.specs.Overlaps.{overlap_at, overlap_of};
ghost use Rattle.location_rules.specs.Decisions.{unchanged, outcome, answered, no_run, found, fetched};

use pipe_log::{Location, LogQueue};
use refusal::Reason;

// A table by value. Its rows are lent beside it, and row i has the index first + i.
#[derive(Clone, Copy, Debug, PartialEq, Eq)]
pub struct Table {
    // first index
    pub first: u64,
    // rewritten count: the rows before it are in the rewrite queue
    pub count: usize,
}

// What ends a run of rows: a row of the append queue, a row of the rewrite queue, or a row whose file number is above a gate.
#[derive(Clone, Copy, Debug, PartialEq, Eq)]
pub enum Stop {
    Append,
    Rewrite,
    Above(u64),
}

// Whether the row ends the run.
pub fn stops(row: Location, stop: Stop) -> bool
    ensures { result ≡ stops_at stop row }
{
    match stop {
        Stop::Append => row.queue == LogQueue::Append,
        Stop::Rewrite => row.queue == LogQueue::Rewrite,
        Stop::Above(gate) => gate < row.seq,
    }
}

// What ends the run of rows that are replaced under this gate, which is the file number up to which rows of the append queue are rewritten,
// where one is given.
pub fn stop_of(gate: Option<u64>) -> Stop
    ensures { result ≡ stop_of gate }
{
    match gate {
        None => Stop::Append,
        Some(number) => Stop::Above(number),
    }
}

// Whether the indexes of n rows from first on end at 2^64 - 1 or before.
fn fits(first: u64, n: usize) -> bool
    ensures { result ≡ indexes_fit first n }
{
    n == 0 || (n - 1) as u64 <= u64::MAX - first
}

// Whether a table of n rows is well formed, by where a row of the wrong queue stands: the first before the count, and the first at the count or after it.
#[tactic(auto, unfolding(crate::specs::Parts::well_formed_by))]
pub fn is_formed(table: Table, n: usize, front: usize, back: usize) -> bool
    ensures { result ≡ well_formed_by table n front back }
{
    table.count <= n && table.count <= front && n <= back && fits(table.first, n)
}

// Whether n incoming rows are taken, by where the first that is not in the rewrite queue stands.
#[tactic(auto, unfolding(crate::specs::Parts::ready_by))]
pub fn is_ready(wrong: usize, n: usize, first: u64) -> bool
    ensures { result ≡ ready_by wrong n first }
{
    n <= wrong && fits(first, n)
}

// The answer to a rewrite: how many rows were replaced, and the rewritten count.
#[derive(Clone, Copy, Debug, PartialEq, Eq)]
pub struct Rewritten {
    pub replaced: usize,
    pub count: usize,
}

// The answer to a fetch: the place and length of the run.
#[derive(Clone, Copy, Debug, PartialEq, Eq)]
pub struct Fetched {
    pub place: usize,
    pub len: usize,
}

// The overlap of a table and incoming rows: the table's rows start to end, and the incoming rows from `from` on. Nothing: 0, 0, 0.
#[derive(Clone, Copy, Debug, Default, PartialEq, Eq)]
pub struct Overlap {
    pub start: usize,
    pub end: usize,
    pub from: usize,
}

// The overlap of n rows from the index `own` on and m incoming rows from the index `first` on.
#[tactic(auto, unfolding(crate::specs::Overlaps::overlap_of))]
pub fn overlap_of(own: u64, n: usize, first: u64, m: usize) -> Overlap
    ensures { result ≡ overlap_of (first - own) (own - first) n m }
{
    let start = first.saturating_sub(own) as usize;
    let from = own.saturating_sub(first) as usize;
    let len = n.saturating_sub(start).min(m.saturating_sub(from));
    overlap_at(start, from, len)
}

// The overlap of len rows from these places on.
fn overlap_at(start: usize, from: usize, len: usize) -> Overlap
    requires { start + len < 18446744073709551616 }
    ensures { result ≡ overlap_at start from len }
{
    if len == 0 {
        return Overlap::default();
    }
    Overlap {
        start,
        end: start + len,
        from,
    }
}

// The answer: the first check that fails, else how many rows are replaced, and the count. The run of rows before the first stop goes
// from the overlap's start to `end`, and is empty where that is before the start.
#[tactic(auto, unfolding(crate::specs::Decisions::answered))]
pub fn decide(
    good: bool,
    ready: bool,
    table: Table,
    over: Overlap,
    end: usize,
    gate: Option<u64>,
) -> Result<Rewritten, Reason>
    ensures { result ≡ answered good ready table over.start (over.end - over.start) (end - over.start) gate }
{
    let count = table.count;
    let start = over.start;
    let limit = over.end;
    if !good {
        return Err(Reason::TableBroken);
    }
    if !ready {
        return Err(Reason::IncomingBroken);
    }
    if limit <= start {
        return Ok(unchanged(count));
    }
    if count < start {
        return Err(Reason::OverlapAfter);
    }
    let reached = start.max(end);
    let run = reached - start;
    match gate {
        None => Ok(Rewritten {
            replaced: run,
            count: reached.max(count),
        }),
        Some(_) if start < count => Err(Reason::OverlapBefore),
        Some(_) => Ok(Rewritten {
            replaced: run,
            count: reached,
        }),
    }
}

// The answer to a rewrite that changes no row and leaves the count.
pub fn unchanged(count: usize) -> Rewritten
    ensures { result ≡ unchanged count }
{
    Rewritten { replaced: 0, count }
}

// The rows replaced and the count after a rewrite of a table with this count: where it is refused none, and the old count.
pub fn outcome(answer: Result<Rewritten, Reason>, count: usize) -> Rewritten
    ensures { result ≡ outcome answer count }
{
    answer.unwrap_or(unchanged(count))
}

// The run of a table from its rewritten count on; it goes from start to `end`, and is empty where that is before the start.
#[tactic(auto, unfolding(crate::specs::Decisions::fetched))]
pub fn run_from(formed: bool, table: Table, start: usize, end: usize) -> Result<Fetched, Reason>
    ensures { result ≡ fetched formed table (end - start) }
{
    if formed {
        Ok(Fetched {
            place: table.count,
            len: end.saturating_sub(start),
        })
    } else {
        Err(Reason::TableBroken)
    }
}

// The run where a fetch is refused.
pub fn no_run() -> Fetched
    ensures { result ≡ no_run }
{
    Fetched { place: 0, len: 0 }
}

// The run of a fetch: none, at row 0, where it is refused.
pub fn found(answer: Result<Fetched, Reason>) -> Fetched
    ensures { result ≡ found answer }
{
    answer.unwrap_or(no_run())
}
