// Whether the recordings of pairs are new to a tree: none of them twice, none in its map. The pairs' numbers are entered into a set of cells,
// then the leaves are passed once.
#![tactic(auto)]

ghost use Rattle.std.specs.Prelude.{◌≡◌, true, [], ◌*◌, ◌-◌, ◌≤◌, length, is_ok};
ghost use Rattle.model.specs.Slots.{view_from, view};
ghost use Rattle.model.specs.Reached.{kept, mapping};
ghost use Rattle.model.specs.SoundTest.{all, sound_view};
ghost use Rattle.numbers.specs.Cells.{outcome};
ghost use Rattle.clear.specs.New.{off, off_pair, tree_pairs, recordings_of, Holds, New, entered_down, are_new};

use leaves::Siblings;
use numbers::Entry;

// Whether a number is surely not in the cells: a free one comes before it on its path. This is the walk of numbers::enter without the write: one
// function for both would have to promise which cell it answers, and that it is free, and neither clause speaks of a cell now.
fn is_off(cells: &[u64; numbers::CELLS], number: u64) -> bool
    ensures { result ≡ off cells.now number }
{
    let mut at = numbers::home(numbers::CELLS, number);
    // No `iter::successors` with `find`: its closure would take a contract, and its list a law that it is the path, where the loop has one invariant.
    for _ in 0..numbers::TRIES {
        let held = cells[at];
        if held == number {
            return false;
        }
        if held == 0 {
            return true;
        }
        at = numbers::next_cell(numbers::CELLS, at);
    }
    false
}

// Whether each recording of a leaf surely is not. The first of its ways is no slot.
fn leaf_off(cells: &[u64; numbers::CELLS], table: &[u64], leaf: u64) -> bool
    ensures { result ≡ all (off_pair cells.now) (kept (view table.now) leaf) }
{
    let w = leaves::ways_of(table, leaf);
    w.pointers[1..w.count]
        .iter()
        .all(|&p| is_off(cells, pointer::recording(p)))
}

// Whether each recording of a tree surely is not. The root comes beside the table: from a struct of both every call here but the
// first would take the table alone.
fn leaves_off(cells: &[u64; numbers::CELLS], table: &[u64], root: u64) -> bool
    ensures { result ≡ all (off_pair cells.now) (tree_pairs (view_from table.now root)) }
{
    let first = leaves::first_leaf(table, root);
    Siblings::new(table, first, leaves::word_at(table, 2)).all(|leaf| leaf_off(cells, table, leaf))
}

// Enters the recordings of the pairs from one on, before another, from the last to the first. The caller lends all pairs and two places: of
// the part `pairs[2 * from..2 * to]` alone, a law would have to say that its pairs are those of the batch from one on, which are_new promises.
fn enter_pairs(cells: &mut [u64; numbers::CELLS], pairs: &[u64], from: usize, to: usize) -> Entry
    requires holds { Holds cells.old [] }
    requires from_le_to { from ≤ to }
    requires to_in_bounds { 2 * to ≤ length pairs.now }
    ensures value { outcome result cells.new ≡ entered_down pairs.now from (to - from) cells.old }
    ensures holds_2 { is_ok result ≡ true → Holds cells.new (recordings_of pairs.now from to) }
{
    // No `all`: its closure would write to the cells, and a proof knows nothing of what a closure writes to.
    for i in (from..to).rev() {
        let number = pointer::recording(pairs[2 * i + 1]);
        numbers::enter(cells, numbers::TRIES, number)?;
    }
    Ok(())
}

// True says that the recordings of these pairs are new to the map of the tree; false says nothing, for instance if the cells get full. That the
// tree is sound is a fact of its table and its root together, and stays a clause (decision 331).
pub fn are_new(table: &[u64], root: u64, pairs: &[u64], from: usize, to: usize) -> bool
    requires root_value { sound_view (view_from table.now root) ≡ true }
    requires from_le_to { from ≤ to }
    requires to_in_bounds { 2 * to ≤ length pairs.now }
    ensures value { result ≡ are_new (view_from table.now root) pairs.now from to }
    ensures new { result ≡ true → New (mapping (view_from table.now root)) (recordings_of pairs.now from to) }
{
    // A set of numbers: memory is fixed, there is no heap.
    let mut cells = [0u64; numbers::CELLS];
    enter_pairs(&mut cells, pairs, from, to).is_ok() && leaves_off(&cells, table, root)
}
