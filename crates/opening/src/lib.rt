// Opening a summary: which nodes of a settled table are reached, and which recordings are in use, worked out by a check and one pass.
#![tactic(auto)]

ghost use Rattle.std.specs.Prelude.{◌≡◌, true, ◌<◌, ◌≤◌, length};
ghost use Rattle.model.specs.Table.{nodes};
ghost use Rattle.model.specs.Slots.{view, view_from};
ghost use Rattle.model.specs.Reached.{kept, reached_all};
ghost use Rattle.model.specs.SoundTest.{settled};
ghost use Rattle.model.specs.Marks.{put, put_each};
ghost use Rattle.model.specs.Cells.{entered_all};
ghost use Rattle.model.specs.Summary.{summary_words, cells_of, recordings_in, opened, opening, opened_words};
ghost use Rattle.walk_laws.specs.Chain.{along, chain};
ghost use Rattle.opening.specs.Passes.{above, rows, pairs_along};

use leaves::Siblings;
use model::{Outcome, Refusal};

// ---- the nodes reached

// Marks node n, if there is a bit for it.
fn mark(marks: &mut [u64], n: u64)
    ensures { marks.new ≡ put marks.old n }
{
    let x = n as usize;
    if x / 64 < marks.len() {
        bits::put(marks, x);
    }
}

// Marks the nodes of a level, from the first along the siblings.
fn mark_level(table: &[u64], first: u64, marks: &mut [u64])
    ensures { marks.new ≡ put_each (along (view table.now) (nodes table.now) first) marks.old }
{
    for n in Siblings::new(table, first, leaves::word_at(table, 2)) {
        mark(marks, n);
    }
}

// Marks the nodes of a tree above its leaves, level by level from the root down.
fn mark_above(table: &[u64], root: u64, marks: &mut [u64])
    ensures { marks.new ≡ put_each (above (view_from table.now root)) marks.old }
{
    let mut first = root;
    for _ in 0..node::word(table, root, 2) {
        mark_level(table, first, marks);
        first = node::word(table, first, 0);
    }
}

// ---- the leaves, and the recordings in use

// Enters the recordings of a leaf of a collection. A loop over the slots: with ways gathered first an opening takes a third more time, as measured.
fn enter_leaf(table: &[u64], collection: u64, leaf: u64, cells: &mut [u64])
    requires collection_bound { collection ≤ 2 }
    requires cells_nonzero { 0 < length cells.old }
    ensures { cells.new ≡ entered_all cells.old (cells_of collection (kept (view table.now) leaf)) }
{
    let x = node::read(table, leaf);
    let bound = node::word(table, x.sibling, 3);
    let mut before = x.left;
    for i in 0..12 {
        let p = x.slots[2 * i + 1];
        if p == 0 {
            return;
        }
        if slots::is_way(x.sibling, bound, before, x.slots[2 * i], p) {
            cells::enter(cells, pointer::join(pointer::recording(p), collection));
        }
        before = p;
    }
}

// Marks the leaves of a collection, from left to right, and enters their recordings. One pass: a node that is not in the cache is waited for once.
fn enter_leaves(table: &[u64], collection: u64, root: u64, marks: &mut [u64], cells: &mut [u64])
    requires collection_bound { collection ≤ 2 }
    requires cells_nonzero { 0 < length cells.old }
    ensures marks_after { marks.new ≡ put_each (chain (view_from table.now root)) marks.old }
    ensures cells_after { cells.new ≡ entered_all cells.old (cells_of collection (pairs_along (view_from table.now root))) }
{
    let first = leaves::first_leaf(table, root);
    for leaf in Siblings::new(table, first, leaves::word_at(table, 2)) {
        mark(marks, leaf);
        enter_leaf(table, collection, leaf, cells);
    }
}

// A collection's nodes and recordings. 0 is no second root: it leads to no node.
fn enter_tree(table: &[u64], collection: u64, root: u64, marks: &mut [u64], cells: &mut [u64])
    requires collection_bound { collection ≤ 2 }
    requires cells_nonzero { 0 < length cells.old }
    ensures marks_after { marks.new ≡ put_each (rows (view_from table.now root)) marks.old }
    ensures cells_after { cells.new ≡ entered_all cells.old (cells_of collection (pairs_along (view_from table.now root))) }
{
    mark_above(table, root, marks);
    enter_leaves(table, collection, root, marks, cells);
}

// Those of a settled table, collection 1 first.
fn enter_both(table: &[u64], marks: &mut [u64], cells: &mut [u64])
    requires table_value { settled table.now ≡ true }
    requires cells_nonzero { 0 < length cells.old }
    ensures marks_after { marks.new ≡ put_each (reached_all table.now) marks.old }
    ensures cells_after { cells.new ≡ entered_all cells.old (recordings_in table.now) }
{
    enter_tree(table, 1, leaves::word_at(table, 1), marks, cells);
    enter_tree(table, 2, leaves::word_at(table, 3), marks, cells);
}

// ---- the call

// The summary of a settled table, in a slice of its length.
fn write_summary(table: &[u64], summary: &mut [u64])
    requires table_value { settled table.now ≡ true }
    requires summary_len { length summary.old ≡ summary_words (nodes table.now) }
    ensures { summary.new ≡ opened table.now }
{
    summary.fill(0);
    let w = quick::mark_words(leaves::word_at(table, 2)) as usize;
    let (marks, cells) = summary.split_at_mut(w);
    enter_both(table, marks, cells);
}

// Works the summary of a table out; 2, 26, 4 and 20 in that order. A refusal changes no word.
pub fn open(table: &[u64], summary: &mut [u64]) -> Outcome
    ensures value { result ≡ opening (length summary.old) table.now }
    ensures summary_after { summary.new ≡ opened_words summary.old table.now }
{
    node::header(table)?;
    if summary.len() as u64 != quick::summary_words(leaves::word_at(table, 2)) {
        return Err(Refusal::OtherSummary);
    }
    let whole = sound::check(table).ok_or(Refusal::NotSound)?;
    if !sound::is_nothing(whole.leftover) {
        return Err(Refusal::NotSettled);
    }
    write_summary(table, summary);
    Ok(())
}
