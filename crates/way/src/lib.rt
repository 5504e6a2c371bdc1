// The way of a quick call: from a root down to the leaf for a key, by the tests of a search and of the summary. Nothing is written.
#![tactic(auto)]

ghost use Rattle.std.specs.Prelude.{◌≡◌, Some, ℕ, true, ◌-◌, ◌*◌, ◌<◌, ◌≤◌, length, get_or};
ghost use Rattle.model.specs.Table.{header_ok, nodes};
ghost use Rattle.model.specs.Slots.{view_from, view};
ghost use Rattle.way.specs.Ways.{plain_count, shown_fit, step_of, Walked};

// A node on the way: its number, the way down from it, and how many slots it shows.
#[derive(Clone, Copy)]
struct Step {
    node: u64,
    way: u64,
    shown: u64,
}

// The nodes that a search stands on, from the root's level down, and the length of the run of full nodes that ends them. Memory is fixed, so
// the nodes stand in an array for the 16 levels that a tree may have, and the height says how many they are.
#[derive(Clone, Copy)]
pub struct Way {
    pub height: u64,
    pub run: u64,
    pub nodes: [u64; 16],
}

// How many slots node m shows, if it hides none.
pub fn plain_count(table: &[u64], m: u64) -> Option<u64>
    ensures value { result ≡ plain_count ((view table.now).node m) }
    ensures upper_bound { (n : ℕ) → result ≡ Some n → n ≤ 12 }
{
    let x = node::read(table, m);
    let slots = x.slots;
    let shown = slots::shown_count(slots, x.left);
    (slots::count(slots) as u64 == shown).then_some(shown)
}

// How many slots node m shows, if it is marked, hides none and shows at most 11. The marks are part of a summary, whose length goes by
// the table: a slice, and no array.
fn shown_fit(table: &[u64], marks: &[u64], m: u64) -> Option<u64>
    requires m_bound { m < 64 * length marks.now }
    requires m_bound_2 { m ≤ 65535 }
    ensures { result ≡ shown_fit marks.now (view table.now) m }
{
    if !bits::has(marks, m as usize) {
        return None;
    }
    let shown = plain_count(table, m)?;
    (shown <= 11).then_some(shown)
}

// Coming to node n on a level: the node that the search stands on there, n or its sibling, if every test passes. That the header is right is a
// clause, here and below: document 01 lays down a lent `&[u64]` for the table.
fn take_step(table: &[u64], marks: &[u64], n: u64, level: u64, key: u64) -> Option<Step>
    requires table_value { header_ok table.now ≡ true }
    requires table_bound { nodes table.now < 64 * length marks.now }
    ensures { result ≡ step_of marks.now (view table.now) level n key }
{
    let s = search::come(table, n, level, key)?;
    let shown = shown_fit(table, marks, s.node)?;
    Some(Step {
        node: s.node,
        way: s.way,
        shown,
    })
}

// The way to the leaf for a key, a level a turn, if every test passes.
pub fn find(table: &[u64], marks: &[u64], root: u64, key: u64) -> Option<Way>
    requires table_value { header_ok table.now ≡ true }
    requires table_bound { nodes table.now < 64 * length marks.now }
    ensures { Walked marks.now (view_from table.now root) key result }
{
    let top = node::word(table, root, 2);
    if 15 < top {
        return None;
    }
    // Fixed memory: a place for each level, the root's first, whatever the height. By place: `(0..=top).rev().enumerate()` would give place and level,
    // and each node would be written by its place all the same.
    let mut nodes = [0u64; 16];
    let mut n = root;
    let mut run = 0;
    for i in 0..=top {
        let s = take_step(table, marks, n, top - i, key)?;
        nodes[i as usize] = s.node;
        run = reach::run_after(run, s.shown == 11);
        n = s.way;
    }
    Some(Way {
        height: top,
        run,
        nodes,
    })
}

// The node of the way on a level; a level above the root's gives the root's.
pub fn on_level(way: Way, level: u64) -> u64
    requires { way.height ≤ 15 }
    ensures { result ≡ get_or way.nodes (way.height - level) 0 }
{
    way.nodes[way.height.saturating_sub(level) as usize]
}
