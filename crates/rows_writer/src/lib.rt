// Writing a body from rows of words that the caller lends, seven to an item and three to an entry: a measuring pass decides every refusal
// and the length, and a writing pass cannot refuse. Words behind the last whole row are not looked at.
//
// Every public function takes any words, and spans that lie anywhere. A refused body is not written at all.
#![tactic(auto)]

ghost use Rattle.std.specs.Prelude.{◌≡◌};
ghost use Rattle.list_writer.specs.Answers.{MeasuredWritten};
ghost use Rattle.rows_writer.specs.Rows.{measure_rows, rows_bytes};

use list_writer::Measured;
use refusal::Refusal;

// The first refusal of a body but 21, or its length and entry total.
pub fn measure_rows(
    items: &[u64],
    entries: &[u64],
    store: &[u8],
    checked: bool,
) -> Result<Measured, Refusal>
    ensures { result ≡ measure_rows store.now checked items.now entries.now }
{
    let (rows, _) = items.as_chunks::<7>();
    let (lengths, _) = entries.as_chunks::<3>();
    list_writer::measure_list(rows, lengths, store, checked)
}

// Writes the body at a place of out and answers how many bytes it has, or leaves out as it was and says why.
pub fn encode_rows(
    items: &[u64],
    entries: &[u64],
    store: &[u8],
    signature: u32,
    checked: bool,
    out: &mut [u8],
    at: usize,
) -> Result<usize, Refusal>
    ensures { MeasuredWritten (measure_rows store.now checked items.now entries.now) (rows_bytes store.now items.now entries.now signature) out.old at result out.new }
{
    list_writer::encode_list(
        items.as_chunks::<7>().0,
        entries.as_chunks::<3>().0,
        store,
        signature,
        checked,
        out,
        at,
    )
}
