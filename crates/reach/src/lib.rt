// Where a search stands on each level, which nodes are reached, and what is counted before a write. Nothing is written.
#![tactic(auto)]

ghost use Rattle.std.specs.Prelude.{◌≡◌, true, ℕ, ◌+◌, ◌-◌, ◌≤◌, length};
ghost use Rattle.model.specs.Table.{at, nodes, root_word};
ghost use Rattle.model.specs.Slots.{view_from, view};
ghost use Rattle.model.specs.Search.{moved};
ghost use Rattle.model.specs.Reached.{flat, head_or, pointers, kept, trees, reached, reached_all};
ghost use Rattle.model.specs.SoundTest.{elem, sound_view, sound};
ghost use Rattle.model.specs.Writes.{numbers, unreached, unreachable, fresh, standing_in, frees_leaf};
ghost use Rattle.walk_laws.specs.Chain.{along};
ghost use Rattle.bits.specs.Bits.{put};
ghost use Rattle.slots.specs.Gathered.{slots_in};
ghost use Rattle.reach.specs.Runs.{full_in, counted, full_run};
ghost use Rattle.reach.specs.Marks.{MARKS, Marked};
ghost use Rattle.reach.specs.Marks.{put_all, named_by, first_parent, named_leaves, marked_once, looked_at, fresh_round, fresh_marks};

use leaves::Siblings;
use slots::Ways;

// Words for a bit of each node.
pub use bits::MARKS;

// The highest number that a node can have.
const LAST: u64 = 65535;

// The unbroken run of full nodes from the leaf upward: its length, and whether it includes the root. Both are data of every run, also of one of
// length 0: no Option says them.
#[derive(Clone, Copy)]
pub struct Run {
    pub length: u64,
    pub root: bool,
}

// ---- where a search stands

// Where a search stands on a level, coming to node n: on n or its sibling.
fn moved(table: &[u64], n: u64, key: u64) -> u64
    ensures { result ≡ moved (view table.now) n key }
{
    let sibling = node::word(table, n, 1);
    if slots::keeps(sibling, node::word(table, sibling, 3), key) {
        n
    } else {
        sibling
    }
}

// The node on a level that the search for a key stands on, from a root. A level above the root's gives the root's.
pub fn standing(table: &[u64], root: u64, level: u64, key: u64) -> u64
    ensures { result ≡ standing_in (view_from table.now root) level key }
{
    let top = node::word(table, root, 2);
    let mut n = root;
    for _ in level..top {
        let m = moved(table, n, key);
        n = search::down(table, m, key);
    }
    moved(table, n, key)
}

// ---- reached nodes

// Whether node n is reached from a root: the search for its own fence, stopped on its level, stands on it. Any number may be asked.
pub fn is_reached(table: &[u64], root: u64, n: u64) -> bool
    requires { sound_view (view_from table.now root) ≡ true }
    ensures { result ≡ elem n (reached (view_from table.now root)) }
{
    let level = node::word(table, n, 2);
    let fence = node::word(table, n, 3);
    standing(table, root, level, fence) == n
}

// Whether it is reached from either root. 0 in word 3 is no second root, here and in `mark_all`: document 01 says so. An Option of it would be made
// here to be taken apart at once, and there 0 is a root that leads to no node.
pub fn is_taken(table: &[u64], n: u64) -> bool
    requires { sound table.now ≡ true }
    ensures { result ≡ elem n (reached_all table.now) }
{
    let second = table[3];
    is_reached(table, table[1], n) || (second != 0 && is_reached(table, second, n))
}

// ---- fresh nodes

// Marks node n, if it is one that a table can have.
fn mark(marks: &mut [u64; MARKS], n: u64)
    ensures { marks.new ≡ put marks.old n }
{
    if LAST < n {
        return;
    }
    bits::put(marks, n as usize);
}

// Marks the nodes that ways lead to.
fn mark_ways(marks: &mut [u64; MARKS], w: Ways)
    ensures { marks.new ≡ put_all (pointers (slots_in w)) marks.old }
{
    for &n in &w.pointers[..w.count] {
        mark(marks, n);
    }
}

// Marks the children that node n names, if it is reached and no leaf. Table and marks are two parameters, here and below, and what is asked of
// them is a clause: the marks outlive a split, the table changes at each, so a value of both would be made anew at each split.
fn mark_children(table: &[u64], marks: &mut [u64; MARKS], n: u64)
    requires { sound table.now ≡ true }
    ensures { marks.new ≡ put_all (named_by table.now n) marks.old }
{
    if node::word(table, n, 2) == 0 {
        return;
    }
    if !is_taken(table, n) {
        return;
    }
    mark_ways(marks, leaves::ways_of(table, n));
}

// From a root down by left to the level above the leaves, if there is one.
fn first_parent(table: &[u64], root: u64) -> u64
    ensures { result ≡ first_parent (view_from table.now root) }
{
    let top = node::word(table, root, 2);
    leaves::leftmost(table, root, top.saturating_sub(1))
}

// Marks the children that the nodes from this one on along the siblings name. A descent for each of these nodes, so that it need not be known
// that they are reached.
fn mark_along(table: &[u64], marks: &mut [u64; MARKS], first: u64)
    requires { sound table.now ≡ true }
    ensures { marks.new
        ≡ put_all (flat (named_by table.now) (along (view table.now) (nodes table.now) first)) marks.old }
{
    for n in Siblings::new(table, first, table[2]) {
        mark_children(table, marks, n);
    }
}

// Marks the leaves of both trees, but one that lacks its slot or is the root.
fn mark_all(table: &[u64], marks: &mut [u64; MARKS])
    requires { sound table.now ≡ true }
    ensures { marks.new ≡ put_all (flat named_leaves (trees table.now)) marks.old }
{
    let first = first_parent(table, table[1]);
    let second = first_parent(table, table[3]);
    mark_along(table, marks, first);
    mark_along(table, marks, second);
}

// The first unreachable node of these, from first to last; 0 if there is none, as the definition `fresh` has it: who asks has counted that there
// is one, and would only unwrap an Option. A descent for each that is not marked; if it finds the node reached, the node is marked.
fn first_unreached(table: &[u64], marks: &mut [u64; MARKS], first: u64, last: u64) -> u64
    requires table_value { sound table.now ≡ true }
    requires marked { Marked table.now marks.old }
    requires last_bound { last ≤ 65535 }
    ensures value { result ≡ head_or 0 (unreached table.now (numbers first (last + 1 - first))) }
    ensures marks_after { marks.new ≡ looked_at table.now (numbers first (last + 1 - first)) marks.old }
    ensures marked_2 { Marked table.now marks.new }
{
    let mut n = first;
    // The range bounds the turns, and n goes past the node that a turn finds: an iterator of the free nodes would hold the marks that turns write to.
    for _ in first..=last {
        let free = marks::first_free(marks, n, last);
        if free == 0 {
            return 0;
        }
        if !is_taken(table, free) {
            return free;
        }
        bits::put(marks, free as usize);
        n = free + 1;
    }
    0
}

// Marks the leaves, unless the root is marked: then they were.
fn mark_once(table: &[u64], marks: &mut [u64; MARKS])
    requires table_value { sound table.now ≡ true }
    requires marked { Marked table.now marks.old }
    ensures marks_after { marks.new ≡ marked_once table.now marks.old }
    ensures marked_2 { Marked table.now marks.new }
{
    if bits::has(marks, table[1] as usize) {
        return;
    }
    mark_all(table, marks);
    mark(marks, table[1]);
}

// The first unreachable node after node a, going round: the leaves are marked first. 0 if there is none, as `fresh` answers it.
fn fresh_marked(table: &[u64], marks: &mut [u64; MARKS], a: u64) -> u64
    requires table_value { sound table.now ≡ true }
    requires marked { Marked table.now marks.old }
    requires a_bound { a ≤ nodes table.now }
    ensures value { result ≡ fresh table.now a }
    ensures marks_after { marks.new ≡ fresh_round table.now marks.old a }
    ensures marked_2 { Marked table.now marks.new }
{
    mark_once(table, marks);
    let n = first_unreached(table, marks, a + 1, table[2]);
    if n != 0 {
        return n;
    }
    first_unreached(table, marks, 1, a.saturating_sub(1))
}

// The first unreachable node after node a, going round from N to 1; 0 if there is none, as the definition has it: an insertion has counted that
// there are enough, and would only unwrap an Option. The next node is tested by itself: if codes come in order it is the one. Marks save
// descents, and what is found out is marked: they serve for the next fresh node too.
pub fn fresh(table: &[u64], marks: &mut [u64; MARKS], a: u64) -> u64
    requires table_value { sound table.now ≡ true }
    requires marked { Marked table.now marks.old }
    requires a_bound { a ≤ nodes table.now }
    ensures value { result ≡ fresh table.now a }
    ensures marks_after { marks.new ≡ fresh_marks table.now marks.old a }
    ensures marked_2 { Marked table.now marks.new }
{
    if a < table[2] && !is_taken(table, a + 1) {
        return a + 1;
    }
    fresh_marked(table, marks, a)
}

// How many nodes are unreachable, from the count of those reached.
pub fn unreachable(table: &[u64], count: u64) -> u64
    requires table_value { sound table.now ≡ true }
    requires count_value { count ≡ length (reached_all table.now) }
    ensures { result ≡ length (unreachable table.now) }
{
    table[2] - count
}

// ---- slots counted

// How many slots node n shows.
pub fn shown_count(table: &[u64], n: u64) -> u64
    ensures { result ≡ length ((view table.now).node n).shown }
{
    let x = node::read(table, n);
    slots::shown_count(x.slots, x.left)
}

// How many of them it keeps.
pub fn kept_count(table: &[u64], n: u64) -> u64
    ensures { result ≡ length (kept (view table.now) n) }
{
    let x = node::read(table, n);
    let bound = node::word(table, x.sibling, 3);
    slots::kept_count(x.slots, x.left, x.sibling, bound)
}

// Whether the deletion of a slot empties its leaf x, which is not the leftmost child of its parent p, in the collection of that root; a
// root leaf has no parent.
pub fn frees_leaf(table: &[u64], root: u64, p: u64, x: u64) -> bool
    ensures { (n : ℕ) → root ≡ at table.now (root_word n) → result ≡ frees_leaf n table.now p x }
{
    shown_count(table, x) == 1 && (node::word(table, root, 2) != 0 && node::word(table, p, 0) != x)
}

// ---- the run of full nodes

// Whether node n will be full when the table is repaired; parent is the node that is to get a slot then.
fn is_full(table: &[u64], n: u64, parent: Option<u64>) -> bool
    ensures { result ≡ full_in (view table.now) parent n }
{
    let kept = kept_count(table, n);
    if parent == Some(n) {
        return kept == 10;
    }
    kept == 11
}

// The running count of full nodes after one more node: 0 after one that is not full.
pub fn run_after(count: u64, full: bool) -> u64
    requires { count ≤ 15 }
    ensures { result ≡ counted count full }
{
    if full { count + 1 } else { 0 }
}

// The run for a key from a root, on the table as repair would leave it.
pub fn full_run(table: &[u64], root: u64, key: u64, parent: Option<u64>) -> Run
    requires { sound_view (view_from table.now root) ≡ true }
    ensures { result ≡ full_run (view_from table.now root) key parent }
{
    let top = node::word(table, root, 2);
    let mut n = root;
    let mut count = 0;
    for _ in 0..top {
        let m = moved(table, n, key);
        count = run_after(count, is_full(table, m, parent));
        n = search::down(table, m, key);
    }
    let leaf = moved(table, n, key);
    let length = run_after(count, is_full(table, leaf, parent));
    Run {
        length,
        root: length == top + 1,
    }
}
