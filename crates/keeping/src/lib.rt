// How many pairs a salvage keeps, found without writing to a lent word: at most, in one pass; or exactly, by a bit for each slot of the nodes
// entered, 12 to a node, each slot compared with those marked before it.
#![tactic(auto)]

ghost use Rattle.std.specs.Prelude.{◌≡◌, cond, ◌||◌, ◌+◌, ◌*◌, ◌≤◌, ◌<◌, eqb, length};
ghost use Rattle.model.specs.Refusals.{has_key, has_recording};
ghost use Rattle.model.specs.Slots.{recording_of};
ghost use Rattle.model.specs.Salvage.{reason_for, collected, gathered_along};
ghost use Rattle.gather.specs.Held.{met};
ghost use Rattle.keeping.specs.Marks.{slot_of, pair_of, marked_to, Marked, NodeMarked};

// ---- slots in use

// How many slots are in use in node n, if it is a leaf.
fn used_slots(table: &[u64], n: u64) -> usize
    ensures { (length (collected table.now n) ≤ result) × (result ≤ 12) }
{
    let x = node::read(table, n);
    if x.level != 0 {
        return 0;
    }
    slots::count(x.slots)
}

// How many slots are in use in the leaves among these nodes: no fewer than the pairs kept. The bound on the nodes stands here and at
// count_kept, and no public Tour with it: salvage would make one for each collection, beside its own struct of them.
pub fn count_used(table: &[u64], order: &[u16]) -> usize
    requires { length order.now ≤ 65535 }
    ensures { (length (gathered_along table.now order.now).kept ≤ result) × (result ≤ 12 * length order.now) }
{
    // No sum of a map: that it is no less than the pairs kept would be a law of a list of counts, longer than this loop's invariant.
    let mut used = 0;
    for &n in order {
        used += used_slots(table, n as u64);
    }
    used
}

// ---- pairs kept

// A table, and the nodes entered: no more than there are marks for.
#[derive(Clone, Copy)]
struct Tour<'a> {
    table: &'a [u64],
    order: &'a [u16],
    ghost few: { length order.now ≤ 65535 },
}

// A slot's two words.
#[derive(Clone, Copy)]
struct Pair {
    key: u64,
    pointer: u64,
}

// Slot x of the nodes entered, 12 to a node.
fn slot_of(entered: Tour<'_>, x: usize) -> Pair
    requires { x < 12 * length entered.order.now }
    ensures { pair_of result ≡ slot_of entered.entry.table.now entered.entry.order.now x }
{
    let n = node::read(entered.table, entered.order[x / 12] as u64);
    let i = x % 12;
    Pair {
        key: n.slots[2 * i],
        pointer: n.slots[2 * i + 1],
    }
}

// Whether a slot has this key or this recording.
fn clash(s: Pair, key: u64, recording: u64) -> bool
    ensures { result ≡ (eqb s.key key || eqb (recording_of s.pointer) recording) }
{
    s.key == key || pointer::recording(s.pointer) == recording
}

// Whether a marked slot before slot end has this pair's key or recording. The marks stay beside the tour, here and below: of a struct of both, lent
// to be marked, mark_slot and mark_node would have to say besides that table and order stay.
fn clashes(entered: Tour<'_>, marks: &[u64; 12288], end: usize, pair: Pair) -> bool
    requires { end ≤ 12 * length entered.order.now }
    ensures { result ≡ (has_key pair.key (marked_to entered.entry.table.now entered.entry.order.now marks.now end)
        || has_recording (recording_of pair.pointer) (marked_to entered.entry.table.now entered.entry.order.now marks.now end)) }
{
    let recording = pointer::recording(pair.pointer);
    (0..end).rev().any(|x| bits::has(marks, x) && clash(slot_of(entered, x), pair.key, recording))
}

// Whether no reason holds against a pair.
fn keeps(entered: Tour<'_>, marks: &[u64; 12288], end: usize, pair: Pair) -> bool
    requires { end ≤ 12 * length entered.order.now }
    ensures { result ≡ eqb (reason_for (marked_to entered.entry.table.now entered.entry.order.now marks.now end) (pair_of pair)) 0 }
{
    pointer::ok(pair.pointer) && !clashes(entered, marks, end, pair)
}

// Slot i in use of the node entered at place j, where before is the pointer before it: marked, and true, if it is kept.
// The numbers come one by one: a struct of the four would be made at each slot, for this call alone, and taken apart here.
fn mark_slot(
    entered: Tour<'_>,
    marks: &mut [u64; 12288],
    j: usize,
    i: usize,
    sibling: u64,
    before: u64,
    pair: Pair,
) -> bool
    requires { (j < length entered.order.now) × (i < 12) }
    ensures { Marked entered.entry.table.now entered.entry.order.now marks.old marks.new (12 * j + i) pair.key pair.pointer
        (met entered.entry.table.now sibling before i pair.key pair.pointer) (cond result 1 0) }
{
    if !tour::is_met(entered.table, sibling, before, pair.key, pair.pointer) {
        return false;
    }
    if !keeps(entered, marks, 12 * j + i, pair) {
        return false;
    }
    bits::put(marks, 12 * j + i);
    true
}

// The slots of the node entered at place j, if it is a leaf; the answer is how many are kept. gather_node of gather says why the walk stands
// twice.
fn mark_node(entered: Tour<'_>, marks: &mut [u64; 12288], j: usize) -> usize
    requires { j < length entered.order.now }
    ensures { NodeMarked entered.entry.table.now entered.entry.order.now marks.old marks.new j result }
{
    let n = entered.order[j] as u64;
    let x = node::read(entered.table, n);
    if x.level != 0 {
        return 0;
    }
    let mut kept = 0;
    let mut before = x.left;
    // By place, and not over slots::Shown: a slot's place says which mark is its, and hidden slots count for it. gather_node of gather says
    // why there is no iterator with the place.
    for i in 0..12 {
        let pointer = x.slots[2 * i + 1];
        if pointer == 0 {
            return kept;
        }
        let key = x.slots[2 * i];
        let marked = mark_slot(
            entered,
            marks,
            j,
            i,
            x.sibling,
            before,
            Pair { key, pointer },
        );
        kept += usize::from(marked);
        before = pointer;
    }
    kept
}

// How many pairs are kept along these nodes.
pub fn count_kept(table: &[u64], order: &[u16]) -> usize
    requires { length order.now ≤ 65535 }
    ensures { (result ≡ length (gathered_along table.now order.now).kept) × (result ≤ 12 * length order.now) }
{
    let entered = Tour { table, order };
    // A set of numbers as bits: memory is fixed, there is no heap.
    let mut marks = [0u64; 12288];
    let mut kept = 0;
    // By place: a node's place says which marks are its.
    for j in 0..order.len() {
        kept += mark_node(entered, &mut marks, j);
    }
    kept
}
