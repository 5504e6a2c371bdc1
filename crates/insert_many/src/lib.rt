// Many insertions in one call: one check, then the pairs one by one, each on the table that the one before it left and with the list behind
// the words that it filled.
#![tactic(auto)]

ghost use Rattle.std.specs.Prelude.{◌≡◌, true, false, ◌+◌, ◌*◌, ◌/◌, ◌≤◌, ◌<◌, length, get_or};
ghost use Rattle.model.specs.Results.{no_counts};
ghost use Rattle.model.specs.Table.{no_collection};
ghost use Rattle.model.specs.Slots.{slots_of, recording_of};
ghost use Rattle.model.specs.Reached.{map_of};
ghost use Rattle.model.specs.SoundTest.{sound};
ghost use Rattle.model.specs.Refusals.{has_recording, written, table_after, list_after};
ghost use Rattle.model.specs.Batch.{batch};
ghost use Rattle.reach.specs.Marks.{Marked};
ghost use Rattle.clear.specs.New.{recordings_of, New};
ghost use Rattle.insert.specs.Entered.{Found, call_of, as_written, Reaches};
ghost use Rattle.insert_many.specs.Going.{answer_of, ahead, goes_on, Fit, Gains, new_end};

use insert::{Entered, Insertion};
use model::{Batch, Counts, Refusal};
use sound::{Leftover, Sound};

// How far a batch has come: the pairs taken and the counts of their orders; what repair has to do, and how many nodes are reached.
#[derive(Clone, Copy)]
pub struct Progress {
    pub taken: usize,
    pub counts: Counts,
    pub checked: Sound,
}

// The single call, on a table that was found sound, if it is known whether the map has the recording (`known` is what was found out,
// here and below, and no switch). Slices and numbers are those that C lends and hands over, the dock's too; the marks are lent by take_all.
// What is said of the table is a clause, here and below: each pair's stores make another table, so that a type with the fact would be made anew.
fn take_one(
    table: &mut [u64],
    list: &mut [u64],
    marks: &mut [u64; reach::MARKS],
    dock: u64,
    x: Insertion,
    checked: Sound,
    known: bool,
) -> Result<Entered, Refusal>
    requires found { Found table.old checked }
    requires table_value { no_collection x.collection table.old ≡ false }
    requires dock_bound { dock ≤ 1 }
    requires known_value { known ≡ has_recording x.recording (map_of x.collection table.old) }
    requires marked { Marked table.old marks.old }
    ensures result_value { as_written result ≡ written (call_of x) (length list.old) dock table.old }
    ensures table_after { table.new ≡ table_after (call_of x) (length list.old) dock table.old }
    ensures list_after { list.new ≡ list_after (call_of x) list.old dock table.old }
    ensures counts { Reaches result table.new }
    ensures marked_2 { Marked table.new marks.new }
{
    if list.len() < write::words_for(dock) {
        return Err(Refusal::ShortList);
    }
    insert::insert_known(table, list, marks, dock, x, checked, known)
}

// The next pair, or the refusal that stops the batch.
fn take_next(
    table: &mut [u64],
    list: &mut [u64],
    marks: &mut [u64; reach::MARKS],
    dock: u64,
    collection: u64,
    pairs: &[u64],
    p: Progress,
    known: bool,
) -> Result<Progress, Refusal>
    requires fit { Fit collection dock p list.old table.old }
    requires taken_in_bounds { 2 * p.taken + 1 < length pairs.now }
    requires known_value { known ≡ has_recording (recording_of (get_or pairs.now (2 * p.taken + 1) 0)) (map_of collection table.old) }
    requires marked { Marked table.old marks.old }
    ensures table_after { goes_on collection dock (slots_of pairs.now) p result list.new table.new
        ≡ ahead collection dock (slots_of pairs.now) p list.old table.old }
    ensures gains { Gains collection dock (recording_of (get_or pairs.now (2 * p.taken + 1) 0)) p result table.old list.new table.new }
    ensures marked_2 { Marked table.new marks.new }
{
    let i = p.taken;
    // Added here, by no method of Counts: it would need a clause that the sum fits a word, which each caller would have to answer.
    let Counts {
        stores,
        flushes,
        barriers,
    } = p.counts;
    let filled = 2 * (stores + flushes + barriers) as usize;
    let pointer = pairs[2 * i + 1];
    let x = Insertion {
        collection,
        key: pairs[2 * i],
        recording: pointer::recording(pointer),
        access: pointer::class(pointer),
    };
    let free = &mut list[filled..];
    let entered = take_one(table, free, marks, dock, x, p.checked, known)?;
    Ok(Progress {
        taken: i + 1,
        counts: p.counts + entered.counts,
        checked: Sound {
            leftover: Leftover::Nothing,
            reached: entered.reached,
        },
    })
}

// Where pairs from pair i on that are known to have new recordings end: as known before, if pair i is one of them. Else a pass over the
// leaves looks for the recordings of all pairs that are left; if it finds nothing out, another looks for half of them, and so on.
fn new_end(table: &[u64], collection: u64, pairs: &[u64], i: usize, end: usize) -> usize
    requires table_value { sound table.now ≡ true }
    requires table_value_2 { no_collection collection table.now ≡ false }
    requires i_in_bounds { i ≤ length pairs.now / 2 }
    requires new { New (map_of collection table.now) (recordings_of pairs.now i end) }
    ensures value { result ≡ new_end collection table.now pairs.now i end }
    ensures new_2 { New (map_of collection table.now) (recordings_of pairs.now i result) }
{
    if i < end {
        return end;
    }
    let root = node::root_of(table, collection);
    let mut width = pairs.len() / 2 - i;
    // A width halves: no range or iterator says that more plainly.
    while 1 < width {
        if clear::are_new(table, root, pairs, i, i + width) {
            return i + width;
        }
        width /= 2;
    }
    i
}

// Whether the map of the collection has the recording of a pair; before the end it is new.
fn is_known(table: &[u64], collection: u64, pairs: &[u64], i: usize, end: usize) -> bool
    requires table_value { sound table.now ≡ true }
    requires table_value_2 { no_collection collection table.now ≡ false }
    requires i_in_bounds { 2 * i + 1 < length pairs.now }
    requires new { New (map_of collection table.now) (recordings_of pairs.now i end) }
    ensures { result ≡ has_recording (recording_of (get_or pairs.now (2 * i + 1) 0)) (map_of collection table.now) }
{
    let root = node::root_of(table, collection);
    end <= i && insert::has_recording(table, root, pointer::recording(pairs[2 * i + 1]))
}

// What a batch answers that ends here, stopped or not.
fn answer_of(p: Progress, stop: Option<Refusal>) -> Batch
    ensures { result ≡ answer_of p stop }
{
    Batch {
        stop,
        taken: p.taken as u64,
        counts: p.counts,
    }
}

// All pairs, from a table that the check found sound.
fn take_all(
    table: &mut [u64],
    list: &mut [u64],
    dock: u64,
    collection: u64,
    pairs: &[u64],
    checked: Sound,
) -> Batch
    requires found { Found table.old checked }
    requires table_value { no_collection collection table.old ≡ false }
    requires dock_bound { dock ≤ 1 }
    ensures { record { answer = result; table = table.new; list = list.new }
        ≡ batch collection dock (slots_of pairs.now) list.old table.old }
{
    let count = pairs.len() / 2;
    let mut p = Progress {
        taken: 0,
        counts: Counts::default(),
        checked,
    };
    // A bit for each node that a table may have: memory is fixed, there is no heap.
    let mut marks = [0u64; reach::MARKS];
    let mut end = 0;
    // By number, and no chunks of the slice: where the recordings known to be new end is a pair's number.
    for i in 0..count {
        end = new_end(table, collection, pairs, i, end);
        let known = is_known(table, collection, pairs, i, end);
        match take_next(table, list, &mut marks, dock, collection, pairs, p, known) {
            Ok(next) => p = next,
            Err(refusal) => return answer_of(p, Some(refusal)),
        }
    }
    answer_of(p, None)
}

// A batch that is stopped before its first pair. Written out: a `Default` of Batch would serve here alone, and hide the two fields that say it.
fn stopped(stop: Option<Refusal>) -> Batch
    ensures { result ≡ record { stop = stop; taken = 0; counts = no_counts } }
{
    Batch {
        stop,
        taken: 0,
        counts: Counts::default(),
    }
}

// The call.
pub fn insert_many(
    table: &mut [u64],
    list: &mut [u64],
    dock: u64,
    collection: u64,
    pairs: &[u64],
) -> Batch
    ensures value { result ≡ (batch collection dock (slots_of pairs.now) list.old table.old).answer }
    ensures table_after { table.new ≡ (batch collection dock (slots_of pairs.now) list.old table.old).table }
    ensures list_after { list.new ≡ (batch collection dock (slots_of pairs.now) list.old table.old).list }
{
    if pairs.len() < 2 {
        return stopped(None);
    }
    match write::judge(table, collection, list.len(), dock) {
        Err(refusal) => stopped(Some(refusal)),
        Ok(checked) => take_all(table, list, dock, collection, pairs, checked),
    }
}
