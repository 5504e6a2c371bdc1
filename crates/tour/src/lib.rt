// The tour of a salvage: the nodes entered, in order. A stack of nodes, each with the way to look at next, stands for what is still to be met.
#![tactic(auto)]

ghost use Rattle.std.specs.Prelude.{◌≡◌, not, ◌&&◌, ◌++◌, ◌≤◌, eqb, take};
ghost use Rattle.model.specs.Table.{nodes};
ghost use Rattle.model.specs.Salvage.{under_fence, entered_from};
ghost use Rattle.tour.specs.Loop.{Looked, Marked, Ready, unmarked};

// A node, and the level that it must have.
#[derive(Clone, Copy)]
struct Met {
    node: u64,
    level: u64,
}

// What a way leads to, if it meets a node; and the way after it. Ways are numbers, and no enum: with a slot's place in it one
// takes two bytes, which is 64 KB more of salvage's stack (memory is fixed, no heap); with a variant for each slot it is turned to a place again.
#[derive(Clone, Copy)]
struct Sight {
    met: Option<Met>,
    way: u8,
}

// N, as word 2 of the table has it; 0 for a slice that ends before. `leaves::word_at(table, 2)` answers the same, but this crate rests on no leaves, and
// would rest on one crate more for this one word.
fn nodes(table: &[u64]) -> u64
    ensures { result ≡ nodes table.now }
{
    table.get(2).copied().unwrap_or(0)
}

// Whether a slot of this key is followed or collected: below the sibling's fence, or no sibling in range.
#[tactic(auto, unfolding(model::specs::Salvage::under_fence))]
pub fn under_fence(table: &[u64], sibling: u64, key: u64) -> bool
    ensures { result ≡ under_fence table.now sibling key }
{
    !node::in_range(nodes(table), sibling) || key < node::read(table, sibling).fence
}

// Whether a slot in use is met, where before is the pointer before it: shown, and followed or collected.
pub fn is_met(table: &[u64], sibling: u64, before: u64, key: u64, pointer: u64) -> bool
    ensures { result ≡ (not (eqb pointer before) && under_fence table.now sibling key) }
{
    pointer != before && under_fence(table, sibling, key)
}

// Way w of node n: 0 its left child, 1 to 12 its slots, 13 its sibling.
fn look(table: &[u64], n: u64, w: u8) -> Sight
    requires { w ≤ 13 }
    ensures { Looked table.now n w result }
{
    let node = node::read(table, n);
    if w == 0 {
        if node.level == 0 {
            return Sight { met: None, way: 13 };
        }
        let met = Met {
            node: node.left,
            level: node.level - 1,
        };
        return Sight {
            met: Some(met),
            way: 1,
        };
    }
    if w == 13 {
        let met = Met {
            node: node.sibling,
            level: node.level,
        };
        return Sight {
            met: Some(met),
            way: 14,
        };
    }
    let j = w as usize - 1;
    let key = node.slots[2 * j];
    let pointer = node.slots[2 * j + 1];
    if pointer == 0 {
        return Sight { met: None, way: 13 };
    }
    let way = w + 1;
    let before = slots::pointer_before(node.slots, node.left, j);
    if !is_met(table, node.sibling, before, key, pointer) {
        return Sight { met: None, way };
    }
    let met = Met {
        node: pointer,
        level: node.level.saturating_sub(1),
    };
    Sight {
        met: Some(met),
        way,
    }
}

// Whether a node may be entered: its number in range, on the level that it must have, and not marked.
#[tactic(auto, unfolding(crate::specs::Loop::unmarked))]
fn may_enter(table: &[u64], marks: &[u64; 1024], i: u64, level: u64) -> bool
    requires { nodes table.now ≤ 65535 }
    ensures { result ≡ unmarked table.now marks.now i level }
{
    node::in_range(nodes(table), i)
        && (node::read(table, i).level == level && !bits::has(marks, i as usize))
}

// The nodes entered from a root, in order, put after so many that were entered before; the answer is how many there are then. Nodes are
// marked when they are entered. The stack and its ways are lent: as arrays of this function they are compiled wrongly. They are two arrays, since
// one of structs takes four bytes an entry in place of three, 64 KB more. They, the marks, the order and its count come one by one: a struct
// of them would be made for salvage's two calls, and taken apart in this function.
pub fn tour(
    table: &[u64],
    root: u64,
    marks: &mut [u64; 1024],
    stack: &mut [u16; 65536],
    ways: &mut [u8; 65536],
    order: &mut [u16; 65536],
    before: usize,
) -> usize
    requires { Ready table.now marks.old order.old before }
    ensures order_after { take result order.new
        ≡ take before order.old ++ entered_from table.now root (take before order.old) }
    ensures marked { Marked table.now marks.new (take result order.new) }
    ensures lower_bound { (before ≤ result) × (result ≤ nodes table.now) }
{
    if !may_enter(table, marks, root, node::read(table, root).level) {
        return before;
    }
    // The root is put as a node met is, below: one function for both would take four arrays, count and depth, for these four lines.
    bits::put(marks, root as usize);
    stack[0] = root as u16;
    ways[0] = 0;
    order[before] = root as u16;
    let mut count = before + 1;
    let mut depth = 1;
    // No range counts this: the stack grows and shrinks.
    while 0 < depth {
        let last = depth - 1;
        let n = stack[last] as u64;
        let w = ways[last];
        if 13 < w {
            depth = last;
        } else {
            let seen = look(table, n, w);
            ways[last] = seen.way;
            if let Some(met) = seen.met {
                if may_enter(table, marks, met.node, met.level) {
                    bits::put(marks, met.node as usize);
                    order[count] = met.node as u16;
                    count += 1;
                    stack[depth] = met.node as u16;
                    ways[depth] = 0;
                    depth += 1;
                }
            }
        }
    }
    count
}
