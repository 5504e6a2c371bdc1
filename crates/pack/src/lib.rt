// Pairs in the words of a slice packed into the nodes of a table, in place, after the nodes that are made already. Nodes are counted from 0
// here: node k begins at word 32 * k, its number is k + 1. A slice of nodes is a table without its header.
#![tactic(auto)]

ghost use Rattle.std.specs.Prelude.{◌≡◌, ◌++◌, ℕ, suc, min, ◌+◌, ◌-◌, ◌*◌, ◌/◌, ◌≤◌, ◌<◌, length, take, drop, replicate};
ghost use Rattle.std.proofs.lemmas.List.Edits.{sets};
ghost use Rattle.model.specs.Packing.{bottom, row_words, packed_count};
ghost use Rattle.pack_laws.specs.Needed.{nodes_above, nodes_needed};
ghost use Rattle.pack.specs.Rows.{pairs_in, slotted, head_words, next_number, children_from, leaf_fence, leaf_words, inner_words, row_over};
ghost use Rattle.pack.specs.Rows.{raised, pairs_after, packed_after};

use model::{MARK, Node};

// How many leaves so many pairs need. The bound stands in three contracts, two of them public: a struct of the one number, with it as a ghost
// field, would be made by each caller for each call.
fn leaf_count(pairs: usize) -> usize
    requires { pairs ≤ 16777216 }
    ensures { result ≡ suc ((pairs - 1) / 11) }
{
    pairs.div_ceil(11).max(1)
}

// How many nodes so many pairs need.
pub fn needed(pairs: usize) -> usize
    requires { pairs ≤ 16777216 }
    ensures { result ≡ nodes_needed pairs }
{
    let mut row = leaf_count(pairs);
    let mut total = row;
    // No iter::successors: its closure would take a contract, and its list a law that it ends and what its sum is, where the loop has one
    // invariant.
    for _ in 0..15usize {
        if row <= 1 {
            return total;
        }
        row = row.div_ceil(12);
        total += row;
    }
    total
}

// ---- one node

// The 32 words of a node. No From: the node and the array are both another crate's, and in model, where Node is, it would stand for this crate
// alone, without its definition head_words.
fn node_words(n: Node) -> [u64; 32]
    ensures { result ≡ head_words n.left n.sibling n.level n.fence ++ n.slots }
{
    // Nodes and slots are whole values of a fixed size: memory is fixed, there is no heap.
    let mut words = [0u64; 32];
    words[0] = n.left;
    words[1] = n.sibling;
    words[2] = n.level;
    words[3] = n.fence;
    words[8..].copy_from_slice(&n.slots);
    words
}

// The 32 words of a node, from word w on.
fn put_words(nodes: &mut [u64], w: usize, words: [u64; 32])
    requires { w + 32 ≤ length nodes.old }
    ensures { nodes.new ≡ sets nodes.old w words }
{
    nodes[w..w + 32].copy_from_slice(&words);
}

// The number of the node after node k, in a row that ends before node e. 0 for none, and no None: it goes into the sibling's word, where 0
// is none.
fn next_number(k: usize, e: usize) -> u64
    requires { k < 16777216 }
    ensures { result ≡ next_number k e }
{
    if k + 1 < e {
        return (k + 2) as u64;
    }
    0
}

// ---- leaves

// The slot words of leaf j. That the pairs lie in the slice is a clause, here and below, for the slice is written at each leaf; the bounds below
// 16777216 are of five numbers, none of them in three contracts.
fn leaf_slots(nodes: &[u64], pairs: usize, j: usize) -> [u64; 24]
    requires { (2 * pairs ≤ length nodes.now) × (11 * j ≤ pairs) × (j < 16777216) }
    ensures { result ≡ slotted (take 11 (drop (11 * j) (pairs_in nodes.now pairs))) }
{
    // A node's words are a whole value of a fixed size: memory is fixed, there is no heap.
    let mut slots = [0u64; 24];
    let w = 22 * j;
    let count = (2 * pairs - w).min(22);
    slots[..count].copy_from_slice(&nodes[w..w + count]);
    slots
}

// The fence of leaf j: its lowest key; 0 for the first.
fn leaf_fence(nodes: &[u64], j: usize) -> u64
    requires { 22 * j < length nodes.now }
    ensures { result ≡ leaf_fence nodes.now j }
{
    if j == 0 {
        return 0;
    }
    nodes[22 * j]
}

// Leaf j of so many, in the slice from the first of them on. A struct of the three numbers would be made for one call, and taken apart here.
fn put_leaf(nodes: &mut [u64], before: usize, pairs: usize, leaves: usize, j: usize)
    requires { (2 * pairs ≤ length nodes.old) × (32 * leaves ≤ length nodes.old) × (j < leaves) × (before + leaves < 16777216) × (11 * j ≤ pairs) }
    ensures { nodes.new ≡ sets nodes.old (32 * j) (leaf_words nodes.old before pairs leaves j) }
{
    let slots = leaf_slots(nodes, pairs, j);
    let fence = leaf_fence(nodes, j);
    let leaf = Node {
        left: MARK,
        sibling: next_number(before + j, before + leaves),
        level: 0,
        fence,
        slots,
    };
    put_words(nodes, 32 * j, node_words(leaf));
}

// All leaves, from the last down: a leaf's words come after the pairs of the leaves before it.
fn put_leaves(nodes: &mut [u64], before: usize, pairs: usize, leaves: usize)
    requires { (2 * pairs ≤ length nodes.old) × (32 * leaves ≤ length nodes.old) × (leaves ≡ suc ((pairs - 1) / 11))
        × (before + leaves < 16777216) }
    ensures { nodes.new ≡ row_words 0 (suc before) (bottom (pairs_in nodes.old pairs)) ++ drop (32 * leaves) nodes.old }
{
    // By place, and no chunks_mut: a leaf's words stand in the slice whose pairs it is made of.
    for j in (0..leaves).rev() {
        put_leaf(nodes, before, pairs, leaves, j);
    }
}

// ---- inner nodes

// The slot words of an inner node over so many nodes from node first on, all but the one that is its left. Each caller of these functions
// works out another first and count: a struct of the two would not be handed on.
fn child_slots(nodes: &[u64], first: usize, count: usize) -> [u64; 24]
    requires { (count ≤ 12) × (32 * (first + count) ≤ length nodes.now) × (first < 16777216) }
    ensures { result ≡ slotted (children_from nodes.now first count) }
{
    // A whole value of a fixed size, as above.
    let mut slots = [0u64; 24];
    // By place: with chunks_exact and enumerate the slots would be written by place all the same, and the nodes cut to these first.
    for i in 0..count {
        let k = first + i;
        slots[2 * i] = nodes[32 * k + 3];
        slots[2 * i + 1] = (k + 1) as u64;
    }
    slots
}

// Node k on this level, in a row that ends before node end, over so many nodes from node first on.
fn put_inner(nodes: &mut [u64], first: usize, count: usize, level: u64, k: usize, end: usize)
    requires { (1 ≤ count) × (count ≤ 12) × (first + count ≤ k) × (32 * (k + 1) ≤ length nodes.old) × (k < 16777216) }
    ensures { nodes.new ≡ sets nodes.old (32 * k) (inner_words nodes.old first count level k end) }
{
    let slots = child_slots(nodes, first + 1, count - 1);
    let fence = nodes[32 * first + 3];
    let inner = Node {
        left: (first + 1) as u64,
        sibling: next_number(k, end),
        level,
        fence,
        slots,
    };
    put_words(nodes, 32 * k, node_words(inner));
}

// The row above so many nodes from node first on; the answer is how many it has.
fn put_row(nodes: &mut [u64], first: usize, count: usize, level: u64) -> usize
    requires { (32 * (first + count + (count + 11) / 12) ≤ length nodes.old) × (first + count + count < 16777216) }
    ensures nodes_after { nodes.new ≡ sets nodes.old (32 * (first + count))
        (row_words level (suc (first + count)) (row_over nodes.old first count)) }
    ensures value { result ≡ (count + 11) / 12 }
{
    let row = count.div_ceil(12);
    // By place, and no chunks: a node goes into the slice whose nodes it is made of.
    for g in 0..row {
        put_inner(
            nodes,
            first + 12 * g,
            (count - 12 * g).min(12),
            level,
            first + count + g,
            first + count + row,
        );
    }
    row
}

// The rows above so many leaves, up to the root; the answer is how many nodes there are then.
fn put_rows(nodes: &mut [u64], before: usize, leaves: usize) -> usize
    requires { (32 * (before + (leaves + nodes_above 15 leaves)) ≤ length nodes.old) × (before + leaves < 65536) }
    ensures nodes_after { nodes.new ≡ raised 15 nodes.old before leaves 1 }
    ensures value { result ≡ before + (leaves + nodes_above 15 leaves) }
{
    let mut first = before;
    let mut row = leaves;
    // No iterator: each row is made from the one below, and first, row and the nodes change with it.
    for level in 1..16 {
        if row <= 1 {
            return first + row;
        }
        let above = put_row(nodes, first, row, level);
        first += row;
        row = above;
    }
    first + row
}

// Zeros from word w on.
pub fn clear(nodes: &mut [u64], w: usize)
    requires { w ≤ length nodes.old }
    ensures { nodes.new ≡ take w nodes.old ++ replicate (length nodes.old - w) 0 }
{
    nodes[w..].fill(0);
}

// The pairs in the words after the nodes before packed into the nodes that follow these, of so many in all. The answer is the root's number,
// that of the last node in use; the words after it are 0.
pub fn pack(nodes: &mut [u64], before: usize, pairs: usize) -> usize
    ghost count: { ℕ }
    requires { (length nodes.old ≡ 32 * count) × (count ≤ 65535) × (before + nodes_needed pairs ≤ count) × (pairs ≤ 16777216) }
    ensures nodes_after { nodes.new ≡ packed_after before count nodes.old (pairs_after before nodes.old pairs) }
    ensures value { result ≡ before + packed_count (pairs_after before nodes.old pairs) }
{
    let leaves = leaf_count(pairs);
    let w = 32 * before;
    put_leaves(&mut nodes[w..], before, pairs, leaves);
    let root = put_rows(nodes, before, leaves);
    clear(nodes, 32 * root);
    root
}
