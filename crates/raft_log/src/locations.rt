// The rewrite and the fetch of locations, on rows of words that the caller lends.
ghost use Rattle.std.specs.Prelude.{◌≡◌};
ghost use Rattle.location_rows.specs.Answers.{table_from, RowsRewritten, fetch_words};
ghost use Rattle.item_row.specs.Reply.{reply};
ghost use Rattle.raft_log.specs.Answers.{Replied};
ghost use Rattle.raft_log.specs.Locations.{gate_of, number_or_none, rewrite_reply, fetch_reply};

use location_rules::Table;
use refusal::Reason;

// Replaces rows of a location table by incoming ones.
#[unsafe(no_mangle)]
pub extern "C" fn raft_log_rewrite(
    table: &mut [u64],
    first_index: u64,
    rewritten: u64,
    incoming: &[u64],
    incoming_first: u64,
    with_gate: bool,
    gate: u64,
    answer: &mut [u64; 2],
) -> u32
    ensures { Replied (λ a. RowsRewritten table.old (table_from first_index rewritten) incoming.now incoming_first (gate_of with_gate gate) a table.new) (rewrite_reply rewritten) (reply result answer.new) }
{
    let t = Table {
        first: first_index,
        count: rewritten as usize,
    };
    let gate = if with_gate { Some(gate) } else { None };
    let r = location_rows::rewrite(table, t, incoming, incoming_first, gate);
    let done = location_rules::outcome(r, t.count);
    *answer = [done.replaced as u64, done.count as u64];
    number(r.err())
}

// The longest run of rows from the rewritten count on whose file number is at most the gate.
#[unsafe(no_mangle)]
pub extern "C" fn raft_log_fetch(
    table: &[u64],
    first_index: u64,
    rewritten: u64,
    gate: u64,
    answer: &mut [u64; 2],
) -> u32
    ensures { reply result answer.new ≡ fetch_reply (fetch_words table.now (table_from first_index rewritten) gate) }
{
    let t = Table {
        first: first_index,
        count: rewritten as usize,
    };
    let r = location_rows::fetch(table, t, gate);
    let run = location_rules::found(r);
    *answer = [run.place as u64, run.len as u64];
    number(r.err())
}

// The number of a reason, or 0.
fn number(refused: Option<Reason>) -> u32
    ensures { result ≡ number_or_none refused }
{
    match refused {
        Some(reason) => reason.number(),
        None => 0,
    }
}
