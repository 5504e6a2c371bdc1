// Marks of nodes in a slice, a bit each: a mark less, the first node that is not marked, and whether so many are not.
#![tactic(auto)]

ghost use Rattle.std.specs.Prelude.{◌≡◌, ◌+◌, ◌-◌, ◌*◌, ◌≤◌, ◌<◌, ltb, length};
ghost use Rattle.model.specs.Reached.{head_or};
ghost use Rattle.model.specs.Writes.{numbers};
ghost use Rattle.model.specs.Marks.{cleared};
ghost use Rattle.model.specs.Summary.{unmarked, free_after};
ghost use Rattle.marks.specs.Runs.{Taken, FullWords};

// Takes a mark away.
pub fn clear(marks: &mut [u64], x: usize)
    requires { x < 64 * length marks.old }
    ensures { marks.new ≡ cleared marks.old x }
{
    if !bits::has(marks, x) {
        return;
    }
    let i = x / 64;
    marks[i] ^= 1 << (x % 64);
}

// The first word from one on, before another, in which some node is not marked; that other one, if there is none.
fn open_word(marks: &[u64], from: usize, to: usize) -> usize
    requires from_le_to { from ≤ to }
    requires to_in_bounds { to ≤ length marks.now }
    ensures { FullWords marks.now from to result }
{
    for i in from..to {
        if marks[i] != u64::MAX {
            return i;
        }
    }
    to
}

// So many nodes from node n on are marked, none if n is not: those of n's word before the first that is not; or those of a run of full words, up to
// the last node's. In a large table nearly all words are full: so a loop of its own passes them.
fn taken_run(marks: &[u64], n: usize, last: usize) -> u64
    requires n_le_last { n ≤ last }
    requires last_bound { last ≤ 65535 }
    requires last_bound_2 { last < 64 * length marks.now }
    ensures { Taken marks.now n result }
{
    if !bits::full(marks, n) {
        return u64::from((marks[n / 64] >> (n % 64)).trailing_ones());
    }
    let open = open_word(marks, n / 64 + 1, last / 64 + 1);
    (64 * open - n) as u64
}

// The first node from first to last that is not marked; 0 if there is none, here and up to `reach::fresh`, and no Option: an insertion has counted
// that there are enough, and would only unwrap it, and the test of a split refuses 0 as it does any number out of range. The bounds are required,
// not typed: as u16 nodes would be cast from a table's words and back at each call, and the marks of a summary are a slice whose length goes by
// the table.
pub fn first_free(marks: &[u64], first: u64, last: u64) -> u64
    requires last_bound { last ≤ 65535 }
    requires last_bound_2 { last < 64 * length marks.now }
    ensures { result ≡ head_or 0 (unmarked marks.now (numbers first (last + 1 - first))) }
{
    let mut n = first;
    // The step is the run that a call gives, so no range counts it.
    while n <= last {
        let run = taken_run(marks, n as usize, last as usize);
        if run == 0 {
            return n;
        }
        n += run;
    }
    0
}

// The first of so many nodes after node a, going round, that is not marked; 0 if there is none.
pub fn free_after(marks: &[u64], nodes: u64, a: u64) -> u64
    requires nodes_bound { nodes ≤ 65535 }
    requires nodes_bound_2 { nodes < 64 * length marks.now }
    requires a_le_nodes { a ≤ nodes }
    ensures { result ≡ free_after nodes marks.now a }
{
    let n = first_free(marks, a + 1, nodes);
    if n != 0 {
        return n;
    }
    first_free(marks, 1, a.saturating_sub(1))
}

// Whether fewer than so many of the nodes after one are not marked.
fn few_after(marks: &[u64], nodes: u64, node: u64, want: u64) -> bool
    requires nodes_bound { nodes ≤ 65535 }
    requires nodes_bound_2 { nodes < 64 * length marks.now }
    requires node_le_nodes { node ≤ nodes }
    ensures { result ≡ ltb (length (unmarked marks.now (numbers (node + 1) (nodes + 1 - (node + 1))))) want }
{
    let mut after = node;
    // No `any`: of a closure that writes `after` for the next turn the proof knows nothing.
    for _ in 0..want {
        after = first_free(marks, after + 1, nodes);
        if after == 0 {
            return true;
        }
    }
    false
}

// Whether fewer than so many of the nodes are not marked. The last nodes are asked first: in a table that grows they are free, and the marks of all others
// need not be read.
pub fn few(marks: &[u64], nodes: u64, want: u64) -> bool
    requires nodes_bound { nodes ≤ 65535 }
    requires nodes_bound_2 { nodes < 64 * length marks.now }
    ensures { result ≡ ltb (length (unmarked marks.now (numbers 1 nodes))) want }
{
    few_after(marks, nodes, nodes.saturating_sub(64), want) && few_after(marks, nodes, 0, want)
}
