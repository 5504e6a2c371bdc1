// Whether the recording numbers and classes of the leaves among marked nodes are right: each in its range, no recording number twice. Nodes
// are passed by number, in the order of memory.
#![tactic(auto)]

ghost use Rattle.std.specs.Prelude.{◌≡◌, true, false, map, ◌+◌, ◌-◌, ◌≤◌, ◌<◌, IfSome};
ghost use Rattle.model.specs.Table.{nodes, header_ok};
ghost use Rattle.model.specs.Slots.{recording_of, recording, view};
ghost use Rattle.model.specs.SoundTest.{all, elem, distinct, pair_ok, recordings_ok};
ghost use Rattle.numbers.specs.Cells.{outcome, entered_if, entered_all, Tells};
ghost use Rattle.recordings.specs.Marked.{NoneOf, LastMarked, is_leaf, own, own_numbers, marked_pairs, marked_numbers, kept_in, rest_of};
ghost use Rattle.recordings.specs.Rounds.{PLACES, place_of, hits, hit, hit_if, hit_all, suspect, Stays};
ghost use Rattle.recordings.specs.Once.{once_before};

use model::Node;
use numbers::{CELLS, Entry, Stop};
use slots::Ways;

// ---- the leaves among the marked nodes

pub use bits::MARKS;

// The marked nodes, a bit each, and the one that may show slots from its sibling's fence up, if one does. It is lent and never copied, for it
// is 8 KB long. The table is lent beside it, here and below: a struct of both, with the header's fact in a ghost field, would hold two references
// into two owners, and each clause would reach the table and the marks through it.
#[derive(Drop)]
pub struct Marks {
    pub bits: [u64; MARKS],
    pub uncut: Option<u64>,
}

// A leaf, and the fence of its sibling; 0 is in place of both the sibling and its fence if the sibling is left out.
#[derive(Drop)]
struct Leaf {
    node: Node,
    bound: u64,
}

// Whether node n is marked and a leaf. A test and a read apart: as one function that answered an Option of a node, whose bound each caller read, the
// check of a table took 1 % more instructions, as measured, and its bar is no more than before.
fn is_leaf(table: &[u64], marks: &Marks, n: u64) -> bool
    requires { n ≤ 65535 }
    ensures { result ≡ is_leaf (view table.now) marks.now n }
{
    bits::has(&marks.bits, n as usize) && node::word(table, n, 2) == 0
}

// Node n, which is marked and a leaf. But for the one node a sibling is left out: its fence, which lies anywhere in the table, need not be read.
fn read_leaf(table: &[u64], marks: &Marks, n: u64) -> Leaf
    requires { is_leaf (view table.now) marks.now n ≡ true }
    ensures { kept_in result ≡ own (view table.now) marks.now n }
{
    let x = node::read(table, n);
    if marks.uncut == Some(n) {
        return Leaf {
            node: x,
            bound: node::word(table, x.sibling, 3),
        };
    }
    Leaf {
        node: Node { sibling: 0, ..x },
        bound: 0,
    }
}

// So many numbers from m down, at least, are not marked: those of its word if that is 0.
fn unmarked(marks: &[u64; MARKS], m: usize) -> usize
    requires { m ≤ 65535 }
    ensures none_of { NoneOf marks.now m result }
    ensures upper_bound { result ≤ 64 }
{
    if marks[m / 64] == 0 {
        return m % 64 + 1;
    }
    if bits::has(marks, m) {
        return 0;
    }
    1
}

// A node above which none is marked, so that a pass takes as long as there are nodes in use, however many the table has.
fn last_marked(table: &[u64], marks: &[u64; MARKS]) -> u64
    requires { header_ok table.now ≡ true }
    ensures { LastMarked (nodes table.now) marks.now result }
{
    let mut m = leaves::word_at(table, 2);
    // No range: unmarked gives each step.
    while 0 < m {
        let skip = unmarked(marks, m as usize) as u64;
        if skip == 0 {
            return m;
        }
        m = m.saturating_sub(skip);
    }
    0
}

// ---- each pair in range

// Whether each kept slot of a leaf has a recording number and a class that there are.
// Loops, here and below: the pointer before a slot says if it is shown, and slots gathered first (as in ways) would be copied in each pass.
// Tried: over an iterator of the kept slots the check of a table takes 6 % more instructions.
fn leaf_ok(x: Leaf) -> bool
    ensures { result ≡ all pair_ok (kept_in x) }
{
    let mut before = x.node.left;
    for i in 0..12 {
        let p = x.node.slots[2 * i + 1];
        if p == 0 {
            return true;
        }
        if slots::is_way(x.node.sibling, x.bound, before, x.node.slots[2 * i], p)
            && !pointer::ok(p)
        {
            return false;
        }
        before = p;
    }
    true
}

// Whether each kept slot of node n has, if it is marked and a leaf.
fn node_ok(table: &[u64], marks: &Marks, n: u64) -> bool
    requires { n ≤ 65535 }
    ensures { result ≡ all pair_ok (own (view table.now) marks.now n) }
{
    if !is_leaf(table, marks, n) {
        return true;
    }
    let x = read_leaf(table, marks, n);
    leaf_ok(x)
}

// Whether each kept slot of all has. A range to one more, here and below where no loop runs over it: the library's laws list what `a..b` yields, and no
// lemma of std's lists `a..=b`, which would need a proof of its own.
fn pairs_ok(table: &[u64], marks: &Marks) -> bool
    requires { header_ok table.now ≡ true }
    ensures { result ≡ all pair_ok (marked_pairs (view table.now) marks.now) }
{
    let last = last_marked(table, &marks.bits);
    (1..last + 1).all(|n| node_ok(table, marks, n))
}

// ---- a round: suspects by bits

// Hits and entries are written to arrays that are lent. Loops do that, and not a closure for each slot or node: after `for_each` a proof knows
// nothing of what its closure wrote to. What a round needs is lent part by part: a struct of references to the three arrays would be lent again to
// each call, and its clauses would name each array before and after as they do now. Nor are a round and its row a struct: step would make a
// second one of the next round and the row that it writes to, and `suspect round row` is all that a clause says of either.

// Words of a bit for each place of a round, and for each two of them.
const ONCE: usize = 16384;

const TWICE: usize = 8192;

// After so many rounds the numbers that are still suspects are compared.
const ROUNDS: u64 = 6;

// The place of a number in a round. The primes stand here and in no table: a remainder by a constant is a product, not a division.
fn place(round: u64, number: u64) -> usize
    ensures value { result ≡ place_of round number }
    ensures upper_bound { result < PLACES }
{
    let at = match round {
        0 => number % 1048573,
        1 => number % 906973,
        2 => number % 975157,
        3 => number % 1011827,
        4 => number % 938459,
        _ => number % 891287,
    };
    at as usize
}

// Whether a number is a suspect in a round, by the pairs of places of which one was hit twice in the round before.
fn is_suspect(twice: &[u64; TWICE], round: u64, number: u64) -> bool
    ensures { result ≡ suspect round twice.now number }
{
    round == 0 || bits::has(twice, place(round - 1, number) / 2)
}

// Hits a place: its first hit is marked, at a later one its pair. Whether it was hit before.
fn hit(once: &mut [u64; ONCE], twice: &mut [u64; TWICE], at: usize) -> bool
    requires { at < PLACES }
    ensures { hits once.new twice.new result ≡ hit at (hits once.old twice.old false) }
{
    if bits::has(once, at) {
        bits::put(twice, at / 2);
        return true;
    }
    bits::put(once, at);
    false
}

// Hits the place of a recording number, if it is a suspect.
fn hit_number(
    olds: &[u64; TWICE],
    once: &mut [u64; ONCE],
    twice: &mut [u64; TWICE],
    round: u64,
    number: u64,
) -> bool
    ensures { hits once.new twice.new result
        ≡ hit_if (suspect round olds.now) (place_of round) number (hits once.old twice.old false) }
{
    is_suspect(olds, round, number) && hit(once, twice, place(round, number))
}

// Hits the places of a leaf's suspects; whether any was hit before.
fn hit_leaf(
    olds: &[u64; TWICE],
    once: &mut [u64; ONCE],
    twice: &mut [u64; TWICE],
    round: u64,
    x: Leaf,
) -> bool
    ensures { hits once.new twice.new result
        ≡ hit_all (suspect round olds.now) (place_of round) (map recording (kept_in x))
        (hits once.old twice.old false) }
{
    let mut crowded = false;
    let mut before = x.node.left;
    for i in 0..12 {
        let p = x.node.slots[2 * i + 1];
        if p == 0 {
            return crowded;
        }
        if slots::is_way(x.node.sibling, x.bound, before, x.node.slots[2 * i], p) {
            crowded |= hit_number(olds, once, twice, round, pointer::recording(p));
        }
        before = p;
    }
    crowded
}

// Hits the places of all suspects; whether any was hit twice.
fn hit_leaves(
    olds: &[u64; TWICE],
    once: &mut [u64; ONCE],
    twice: &mut [u64; TWICE],
    table: &[u64],
    marks: &Marks,
    round: u64,
) -> bool
    requires { header_ok table.now ≡ true }
    ensures { hits once.new twice.new result
        ≡ hit_all (suspect round olds.now) (place_of round) (marked_numbers (view table.now) marks.now)
        (hits once.old twice.old false) }
{
    let last = last_marked(table, &marks.bits);
    let mut crowded = false;
    for n in 1..=last {
        if !is_leaf(table, marks, n) {
            continue;
        }
        let x = read_leaf(table, marks, n);
        crowded |= hit_leaf(olds, once, twice, round, x);
    }
    crowded
}

// ---- few suspects: entered into cells

// Enters a recording number, if it is a suspect.
fn enter_number(cells: &mut [u64; CELLS], twice: &[u64; TWICE], round: u64, number: u64) -> Entry
    ensures { outcome result cells.new ≡ entered_if (suspect round twice.now) cells.old number }
{
    if !is_suspect(twice, round, number) {
        return Ok(());
    }
    numbers::enter(cells, numbers::TRIES, number)
}

// Enters a leaf's suspects.
fn enter_leaf(cells: &mut [u64; CELLS], twice: &[u64; TWICE], round: u64, x: Leaf) -> Entry
    ensures { outcome result cells.new
        ≡ entered_all (suspect round twice.now) (map recording (kept_in x)) cells.old }
{
    let mut before = x.node.left;
    for i in 0..12 {
        let p = x.node.slots[2 * i + 1];
        if p == 0 {
            return Ok(());
        }
        if slots::is_way(x.node.sibling, x.bound, before, x.node.slots[2 * i], p) {
            enter_number(cells, twice, round, pointer::recording(p))?;
        }
        before = p;
    }
    Ok(())
}

// Enters all suspects.
fn enter_leaves(
    cells: &mut [u64; CELLS],
    twice: &[u64; TWICE],
    table: &[u64],
    marks: &Marks,
    round: u64,
) -> Entry
    requires { header_ok table.now ≡ true }
    ensures { outcome result cells.new
        ≡ entered_all (suspect round twice.now) (marked_numbers (view table.now) marks.now) cells.old }
{
    let last = last_marked(table, &marks.bits);
    for n in 1..=last {
        if !is_leaf(table, marks, n) {
            continue;
        }
        let x = read_leaf(table, marks, n);
        enter_leaf(cells, twice, round, x)?;
    }
    Ok(())
}

// ---- the last resort: each number compared with all after it

// The ways down from node n, if it is marked and a leaf: the first, then its kept slots.
fn ways(table: &[u64], marks: &Marks, n: u64) -> Option<Ways>
    requires { n ≤ 65535 }
    ensures numbers { map recording_of (rest_of result) ≡ map recording (own (view table.now) marks.now n) }
    ensures count_low { IfSome result (λ w. 1 ≤ w.count) }
{
    if !is_leaf(table, marks, n) {
        return None;
    }
    let x = read_leaf(table, marks, n);
    Some(slots::gather(x.node, x.bound))
}

// Whether one of these pointers has this recording number.
fn repeats(pointers: &[u64], recording: u64) -> bool
    ensures { result ≡ elem recording (map recording_of pointers.now) }
{
    pointers.iter().any(|&p| pointer::recording(p) == recording)
}

// Whether node n, if it is marked and a leaf, has this recording number.
fn is_in(table: &[u64], marks: &Marks, n: u64, number: u64) -> bool
    requires { n ≤ 65535 }
    ensures { result ≡ elem number (map recording (own (view table.now) marks.now n)) }
{
    let Some(w) = ways(table, marks, n) else {
        return false;
    };
    repeats(&w.pointers[1..w.count], number)
}

// Whether a recording number is in a leaf from node first on.
fn appears(table: &[u64], marks: &Marks, first: u64, recording: u64) -> bool
    requires { header_ok table.now ≡ true }
    ensures { result
        ≡ elem recording (own_numbers (view table.now) marks.now first (nodes table.now + 1 - first)) }
{
    let last = leaves::word_at(table, 2);
    (first..last + 1).any(|n| is_in(table, marks, n, recording))
}

// Whether no recording number of a leaf's pointers comes again in it or in the leaves from the next node on.
fn leaf_once(table: &[u64], marks: &Marks, pointers: &[u64], next: u64) -> bool
    requires { header_ok table.now ≡ true }
    ensures { result ≡ once_before (map recording_of pointers.now)
        (own_numbers (view table.now) marks.now next (nodes table.now + 1 - next)) }
{
    pointers.iter().enumerate().all(|(i, &p)| {
        let number = pointer::recording(p);
        !repeats(&pointers[i + 1..], number) && !appears(table, marks, next, number)
    })
}

// Whether none of node n, if it is marked and a leaf, comes again in it or in the leaves after it.
fn node_once(table: &[u64], marks: &Marks, n: u64) -> bool
    requires table_value { header_ok table.now ≡ true }
    requires n_bound { n ≤ 65535 }
    ensures { result ≡ once_before (map recording (own (view table.now) marks.now n))
        (own_numbers (view table.now) marks.now (n + 1) (nodes table.now + 1 - (n + 1))) }
{
    let Some(w) = ways(table, marks, n) else {
        return true;
    };
    leaf_once(table, marks, &w.pointers[1..w.count], n + 1)
}

// No recording number is there twice: each is compared with all after it. For numbers chosen so that they crowd the same places.
fn compared_once(table: &[u64], marks: &Marks) -> bool
    requires { header_ok table.now ≡ true }
    ensures { result ≡ distinct (marked_numbers (view table.now) marks.now) }
{
    let last = leaves::word_at(table, 2);
    (1..last + 1).all(|n| node_once(table, marks, n))
}

// ---- all of them

// A round, and the suspects that it leaves entered into cells: whether a number is there twice, unless the cells get full. The words of
// places serve as cells after it.
fn step(
    olds: &[u64; TWICE],
    once: &mut [u64; ONCE],
    twice: &mut [u64; TWICE],
    table: &[u64],
    marks: &Marks,
    round: u64,
) -> Entry
    requires table_value { header_ok table.now ≡ true }
    requires round_bound { round ≤ 6 }
    requires stays { Stays (suspect round olds.now) (marked_numbers (view table.now) marks.now) }
    ensures tells { Tells result (marked_numbers (view table.now) marks.now) }
    ensures stays_2 { Stays (suspect (round + 1) twice.new) (marked_numbers (view table.now) marks.now) }
{
    once.fill(0);
    twice.fill(0);
    if !hit_leaves(olds, once, twice, table, marks, round) {
        return Ok(());
    }
    once.fill(0);
    enter_leaves(once, twice, table, marks, round + 1)
}

// No recording number is there twice.
fn once(table: &[u64], marks: &Marks) -> bool
    requires { header_ok table.now ≡ true }
    ensures { result ≡ distinct (marked_numbers (view table.now) marks.now) }
{
    // Fixed memory, no heap. The places hit twice are a new array in each round: it and the suspects in two arrays that change places by reference
    // are both zeroed twice in the first round, which mostly is the last.
    let mut places = [0u64; ONCE];
    let mut olds = [0u64; TWICE];
    for round in 0..ROUNDS {
        let mut twice = [0u64; TWICE];
        match step(&olds, &mut places, &mut twice, table, marks, round) {
            Ok(()) => return true,
            Err(Stop::Known) => return false,
            Err(Stop::Full) => olds = twice,
        }
    }
    compared_once(table, marks)
}

// Whether the recording numbers and classes of the leaves among the marked nodes are right.
pub fn ok(table: &[u64], marks: &Marks) -> bool
    requires { header_ok table.now ≡ true }
    ensures { result ≡ recordings_ok (marked_pairs (view table.now) marks.now) }
{
    pairs_ok(table, marks) && once(table, marks)
}
