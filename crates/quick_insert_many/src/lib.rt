// Many insertions in one call with a summary: the pairs one by one, each as the single call with the table and the summary that the one before it
// left, and with the list behind the words that it filled. Nothing is looked at but the ways of the pairs.
#![tactic(auto)]

ghost use Rattle.std.specs.Prelude.{◌≡◌, ◌+◌, ◌*◌, ◌≤◌, ◌<◌, length};
ghost use Rattle.model.specs.Slots.{slots_of};
ghost use Rattle.model.specs.QuickBatch.{quick_batch};
ghost use Rattle.quick_insert_many.specs.Going.{answer_of, filled, ahead, goes_on, Gains};

use model::{Batch, Counts, Refusal};

// How far a batch has come: the pairs taken, and the counts of their orders.
#[derive(Clone, Copy)]
pub struct Progress {
    pub taken: usize,
    pub counts: Counts,
}

// The next pair, or the refusal that stops the batch.
fn take_next(
    table: &mut [u64],
    list: &mut [u64],
    summary: &mut [u64],
    dock: u64,
    collection: u64,
    pairs: &[u64],
    p: Progress,
) -> Result<Progress, Refusal>
    requires filled_in_bounds { filled p ≤ length list.old }
    requires taken_in_bounds { 2 * p.taken + 1 < length pairs.now }
    ensures same { goes_on collection dock (slots_of pairs.now) p result list.new summary.new table.new
        ≡ ahead collection dock (slots_of pairs.now) p list.old summary.old table.old }
    ensures gains { Gains p result list.new }
{
    let i = p.taken;
    // Added here, by no method of Counts: it would need a clause that the sum fits a word, which each caller would have to answer.
    let Counts {
        stores,
        flushes,
        barriers,
    } = p.counts;
    let filled = 2 * (stores + flushes + barriers) as usize;
    let key = pairs[2 * i];
    let pointer = pairs[2 * i + 1];
    let recording = pointer::recording(pointer);
    let access = pointer::class(pointer);
    let free = &mut list[filled..];
    let counts = quick_insert::insert(
        table, free, summary, dock, collection, key, recording, access,
    )?;
    Ok(Progress {
        taken: i + 1,
        counts: p.counts + counts,
    })
}

// What a batch answers that ends here, stopped or not.
fn answer_of(p: Progress, stop: Option<Refusal>) -> Batch
    ensures { result ≡ answer_of p stop }
{
    Batch {
        stop,
        taken: p.taken as u64,
        counts: p.counts,
    }
}

// The call. Table, list, summary and numbers come one by one, as C hands them in.
pub fn insert_many(
    table: &mut [u64],
    list: &mut [u64],
    summary: &mut [u64],
    dock: u64,
    collection: u64,
    pairs: &[u64],
) -> Batch
    ensures value { result ≡ (quick_batch collection dock (slots_of pairs.now) list.old summary.old table.old).batched.answer }
    ensures table_after { table.new ≡ (quick_batch collection dock (slots_of pairs.now) list.old summary.old table.old).batched.table }
    ensures list_after { list.new ≡ (quick_batch collection dock (slots_of pairs.now) list.old summary.old table.old).batched.list }
    ensures summary_after { summary.new ≡ (quick_batch collection dock (slots_of pairs.now) list.old summary.old table.old).summary }
{
    let count = pairs.len() / 2;
    let mut p = Progress {
        taken: 0,
        counts: Counts::default(),
    };
    // By number, and no chunks of the slice: what the pairs so far came to is said of the first so many of them.
    for _ in 0..count {
        match take_next(table, list, summary, dock, collection, pairs, p) {
            Ok(next) => p = next,
            Err(refusal) => return answer_of(p, Some(refusal)),
        }
    }
    answer_of(p, None)
}
