// The leaves of a tree: the leftmost and the last one, and the finder of a recording number along the siblings.
#![tactic(auto)]

ghost use Rattle.std.specs.Prelude.{◌≡◌};
ghost use Rattle.model.specs.Table.{at};
ghost use Rattle.model.specs.Slots.{view, view_from};
ghost use Rattle.walk_laws.specs.Walk.{ways};
ghost use Rattle.walk_laws.specs.Chain.{leftmost, first_leaf, last_child, last_leaf};
ghost use Rattle.slots.specs.Gathered.{slots_in};
ghost use Rattle.leaves.specs.Hits.{hit_along, hit_in};

mod siblings;

pub use siblings::Siblings;
use slots::Ways;

// A word of the table; 0 past the end, as in the definition, and no Option: each caller would put that 0 in the place of its None.
pub fn word_at(table: &[u64], w: usize) -> u64
    ensures { result ≡ at table.now w }
{
    table.get(w).copied().unwrap_or(0)
}

// The ways down from node n.
pub fn ways_of(table: &[u64], n: u64) -> Ways
    ensures { slots_in result ≡ ways (view table.now) n }
{
    let x = node::read(table, n);
    let bound = node::word(table, x.sibling, 3);
    slots::gather(x, bound)
}

// Where a recording number is in the map: in which leaf, and at which place among the leaf's slots of the map.
#[derive(Clone, Copy)]
pub struct Hit {
    pub node: u64,
    pub slot: u64,
}

// The node that left leads to from this one, so many levels down.
pub fn leftmost(table: &[u64], from: u64, levels: u64) -> u64
    ensures { result ≡ leftmost (view_from table.now from) levels from }
{
    let mut n = from;
    for _ in 0..levels {
        n = node::word(table, n, 0);
    }
    n
}

// The leftmost leaf: from the root down by left; 0 if the root is too high. 0 ends the leaves, as it does in a sibling word.
pub fn first_leaf(table: &[u64], root: u64) -> u64
    ensures { result ≡ first_leaf (view_from table.now root) }
{
    let top = node::word(table, root, 2);
    if 15 < top {
        return 0;
    }
    leftmost(table, root, top)
}

// The last child of a node without sibling: the last that it names, or that one's sibling.
fn last_child(table: &[u64], n: u64) -> u64
    ensures { result ≡ last_child (view table.now) n }
{
    let w = ways_of(table, n);
    let last = w.pointers[w.count - 1];
    let sibling = node::word(table, last, 1);
    if sibling == 0 { last } else { sibling }
}

// The last leaf: from the root down by the last child.
pub fn last_leaf(table: &[u64], root: u64) -> u64
    ensures { result ≡ last_leaf (view_from table.now root) }
{
    let mut n = root;
    for _ in 0..node::word(table, root, 2) {
        n = last_child(table, n);
    }
    n
}

// The first slot of the map with this recording number, in the leaves from the first along the siblings, at most so many.
// Nested loops left by a label, as document 01 names them.
fn find_from(table: &[u64], first: u64, most: u64, recording: u64) -> Option<Hit>
    ensures { result ≡ hit_along (view table.now) most first recording }
{
    let mut hit = None;
    'leaves: for leaf in Siblings::new(table, first, most) {
        let w = ways_of(table, leaf);
        for i in 1..w.count {
            if pointer::recording(w.pointers[i]) == recording {
                hit = Some(Hit {
                    node: leaf,
                    slot: i as u64 - 1,
                });
                break 'leaves;
            }
        }
    }
    hit
}

// Where this recording number is in the map of a tree.
pub fn find_recording(table: &[u64], root: u64, recording: u64) -> Option<Hit>
    ensures { result ≡ hit_in (view_from table.now root) recording }
{
    let first = first_leaf(table, root);
    find_from(table, first, word_at(table, 2), recording)
}
