// The check of a whole table: whether it is sound, what is left over, how many nodes are reached.
#![tactic(auto)]

ghost use Rattle.std.specs.Prelude.{◌≡◌, true, ◌&&◌, Some};
ghost use Rattle.std.proofs.Math.Option.{some};
ghost use Rattle.model.specs.Table.{header_ok, has_node};
ghost use Rattle.model.specs.Slots.{view, view_from, clear_in};
ghost use Rattle.model.specs.Reached.{head_or, next_child, reached};
ghost use Rattle.model.specs.SoundTest.{sibling_ok, add_few, together, times, leftover_of, room, has_room, is_nothing, sound};
ghost use Rattle.walk_laws.specs.Walk.{stands, check, walk};
ghost use Rattle.slots.specs.Gathered.{pointers_from};
ghost use Rattle.sound.specs.Nodes.{standing, left_ok, look_of, noted, slot_checked};
ghost use Rattle.sound.specs.Visited.{visited, slot_visited, Adds, Seen};
ghost use Rattle.sound.specs.Checked.{meant, verdict_of, uncut_in, checked_tree, joined, checked};

use model::{Few, MARK, MissingSlot, Unfinished, Visited};
use recordings::{MARKS, Marks};
use slots::Ways;

// ---- one node

// That the header is right is a clause of each function that reads nodes by it: it is a fact of the table, which is a lent slice (decision 331).
// A struct of the slice with that fact in a ghost field would be taken apart again at each read, for node and leaves take the slice.

// Node n, so many times.
fn times(n: u64, k: u64) -> Few<u64>
    ensures { result ≡ times n k }
{
    match k {
        0 => Few::Zero,
        1 => Few::One(n),
        _ => Few::Many,
    }
}

// Words 4 to 7 and slot 11's pointer are 0.
fn clear(table: &[u64], n: u64) -> bool
    requires { has_node table.now n ≡ true }
    ensures { result ≡ clear_in table.now n }
{
    let w = node::words(table, n);
    w[4..8] == [0; 4] && w[31] == 0
}

// A sibling other than 0 is in 1 to N, on the same level, with a higher fence.
fn sibling_ok(table: &[u64], n: u64) -> bool
    requires { header_ok table.now ≡ true }
    ensures { result ≡ sibling_ok (view table.now) n }
{
    let s = node::word(table, n, 1);
    s == 0
        || node::has(table, s)
            && node::word(table, s, 2) == node::word(table, n, 2)
            && node::word(table, n, 3) < node::word(table, s, 3)
}

// Whether node n is in order but for its slots and its children. A leaf's left is MARK.
fn in_order(table: &[u64], n: u64, level: u64, left: u64) -> bool
    requires table_value { header_ok table.now ≡ true }
    requires n_value { has_node table.now n ≡ true }
    ensures { result ≡ (clear_in table.now n && (sibling_ok (view table.now) n && left_ok level left)) }
{
    clear(table, n) && sibling_ok(table, n) && (level != 0 || left == MARK)
}

// What is unfinished in node n without its children, if it is in order.
fn look_at(table: &[u64], n: u64) -> Option<Unfinished>
    requires table_value { header_ok table.now ≡ true }
    requires n_value { has_node table.now n ≡ true }
    ensures { result ≡ look_of (view table.now) n }
{
    let x = node::read(table, n);
    let bound = node::word(table, x.sibling, 3);
    let s = slots::survey_slots(x, bound);
    if !s.fair {
        return None;
    }
    if !in_order(table, n, x.level, x.left) {
        return None;
    }
    Some(Unfinished {
        hidden: times(n, s.hidden),
        trailing: times(n, u64::from(s.trailing)),
        missing: Few::Zero,
    })
}

// The node that comes after n's last child; 0 for none, as in the word of a sibling that it is compared with.
fn next_child(table: &[u64], n: u64) -> u64
    ensures { result ≡ next_child (view table.now) n }
{
    let s = node::word(table, n, 1);
    if s == 0 { 0 } else { node::word(table, s, 0) }
}

// Whether node n is in 1 to N and stands on this level, with this fence and this sibling.
fn stands(table: &[u64], n: u64, level: u64, fence: u64, right: u64) -> bool
    requires { header_ok table.now ≡ true }
    ensures { result ≡ stands (view table.now) (standing n level fence right) }
{
    node::has(table, n)
        && node::word(table, n, 2) == level
        && node::word(table, n, 3) == fence
        && node::word(table, n, 1) == right
}

// ---- what is unfinished

// The sum of two: none, one, or more than one.
fn add_few<T: Copy>(a: Few<T>, b: Few<T>) -> Few<T>
    ensures { result ≡ add_few a b }
{
    match (a, b) {
        (Few::Zero, _) => b,
        (_, Few::Zero) => a,
        _ => Few::Many,
    }
}

fn together(a: Unfinished, b: Unfinished) -> Unfinished
    ensures { result ≡ together a b }
{
    Unfinished {
        hidden: add_few(a.hidden, b.hidden),
        trailing: add_few(a.trailing, b.trailing),
        missing: add_few(a.missing, b.missing),
    }
}

// A node whose sibling lacks its slot in the parent, noted.
fn note(seen: Visited, parent: u64, child: u64) -> Visited
    ensures { Some result ≡ noted parent child (Some seen) }
{
    let lack = Unfinished {
        hidden: Few::Zero,
        trailing: Few::Zero,
        missing: Few::One(MissingSlot {
            parent,
            node: child,
        }),
    };
    Visited {
        unfinished: together(seen.unfinished, lack),
        ..seen
    }
}

// ---- the check from the root down

// The pointer of way i, or the next after the last one. A test and a read: `[..w.count].get(i).copied().unwrap_or(next)` says them in four steps.
fn pointer_from(w: Ways, i: usize, next: u64) -> u64
    ensures { result ≡ head_or next (pointers_from w i) }
{
    if w.count <= i {
        return next;
    }
    w.pointers[i]
}

// Checks node n, which must stand on this level, with this fence and this sibling, and the nodes below it. Marks those that it visits. The four
// words are no record: it would be written out at each of the four calls, and `stands` would take it apart at once.
#[cycle(check_node_check_slot)]
fn check_node(
    table: &[u64],
    n: u64,
    level: u64,
    fence: u64,
    right: u64,
    seen: Visited,
    marks: &mut [u64; MARKS],
) -> Option<Visited>
    requires { header_ok table.now ≡ true }
    ensures value { result ≡ check (view table.now) level (standing n level fence right) (Some seen) }
    ensures adds { Seen result → Adds (visited (view table.now) level n) marks.old marks.new }
{
    if leaves::word_at(table, 2) <= seen.count {
        return None;
    }
    if !stands(table, n, level, fence, right) {
        return None;
    }
    let own = look_at(table, n)?;
    bits::put(marks, n as usize);
    let mut state = Visited {
        count: seen.count + 1,
        unfinished: together(seen.unfinished, own),
    };
    if level == 0 {
        return Some(state);
    }
    let w = leaves::ways_of(table, n);
    let next = next_child(table, n);
    // By place: a way's key and its pointer stand in two arrays, and the next way's pointer is read with them.
    for i in 0..w.count {
        let after = pointer_from(w, i + 1, next);
        state = check_slot(
            table,
            n,
            level - 1,
            w.keys[i],
            w.pointers[i],
            after,
            state,
            marks,
        )?;
    }
    Some(state)
}

// Checks the node below a slot of the parent, which the node on the right follows, and its sibling if that lacks its slot.
#[cycle(check_node_check_slot)]
fn check_slot(
    table: &[u64],
    parent: u64,
    level: u64,
    key: u64,
    child: u64,
    right: u64,
    seen: Visited,
    marks: &mut [u64; MARKS],
) -> Option<Visited>
    requires { header_ok table.now ≡ true }
    ensures value { result ≡ slot_checked (view table.now) parent level key child right (Some seen) }
    ensures adds { Seen result → Adds (slot_visited (view table.now) level child right) marks.old marks.new }
{
    let sibling = node::word(table, child, 1);
    if sibling == right {
        return check_node(table, child, level, key, right, seen, marks);
    }
    let fence = node::word(table, sibling, 3);
    let lacking = note(seen, parent, child);
    let first = check_node(table, child, level, key, sibling, lacking, marks)?;
    check_node(table, sibling, level, fence, right, first, marks)
}

// The check of a whole tree but for the recording numbers, the classes and the leftover. Marks the nodes reached.
fn walk(table: &[u64], root: u64, marks: &mut [u64; MARKS]) -> Option<Visited>
    requires { header_ok table.now ≡ true }
    ensures value { result ≡ walk (view_from table.now root) }
    ensures adds { Seen result → Adds (reached (view_from table.now root)) marks.old marks.new }
{
    let top = node::word(table, root, 2);
    if 15 < top {
        return None;
    }
    // Written out, here and above: `Few::Zero` says the case, which `Unfinished::default()` would leave to be looked up in model.
    let start = Visited {
        count: 0,
        unfinished: Unfinished {
            hidden: Few::Zero,
            trailing: Few::Zero,
            missing: Few::Zero,
        },
    };
    check_node(table, root, top, 0, 0, start, marks)
}

// ---- the leftover, and the whole check

// What a sound table has left: nothing; a hidden slot in a node; a node whose sibling lacks its slot in the parent, and whether it still
// shows slots from that sibling's fence up; such a node, and a hidden slot in the parent. Four cases, and no Option of three:
// judge would answer an Option of an Option.
#[derive(Clone, Copy)]
pub enum Leftover {
    Nothing,
    HiddenIn(u64),
    MissingIn {
        parent: u64,
        node: u64,
        trailing: bool,
    },
    BothIn {
        parent: u64,
        node: u64,
    },
}

// What the check of a sound table answers: the leftover, and the number of nodes reached.
#[derive(Clone, Copy)]
pub struct Sound {
    pub leftover: Leftover,
    pub reached: u64,
}

// The leftover that what is unfinished amounts to, if it is one.
#[tactic(auto, unfolding(model::specs::SoundTest::leftover_of))]
fn judge(u: Unfinished) -> Option<Leftover>
    ensures { result ≡ verdict_of (leftover_of u) }
{
    match (u.hidden, u.trailing, u.missing) {
        (Few::Zero, Few::Zero, Few::Zero) => Some(Leftover::Nothing),
        (Few::Zero, Few::Zero, Few::One(MissingSlot { parent, node })) => Some(
            Leftover::MissingIn {
                parent,
                node,
                trailing: false,
            },
        ),
        (Few::Zero, Few::One(x), Few::One(MissingSlot { parent, node })) if x == node => Some(
            Leftover::MissingIn {
                parent,
                node,
                trailing: true,
            },
        ),
        (Few::One(q), Few::Zero, Few::Zero) => Some(Leftover::HiddenIn(q)),
        (Few::One(q), Few::Zero, Few::One(MissingSlot { parent, node })) if q == parent => Some(
            Leftover::BothIn { parent, node },
        ),
        _ => None,
    }
}

// Whether node n shows at most 10 slots.
fn room(table: &[u64], n: u64) -> bool
    ensures { result ≡ room (view table.now) n }
{
    let x = node::read(table, n);
    slots::shown_count(x.slots, x.left) <= 10
}

// Whether the parent that lacks a slot has room for it. No function for the parent alone, with `is_none_or`, here and in insert: it would need a
// definition of its own below both, and a closure with a law for `has_room`, to save two arms.
fn has_room(table: &[u64], left: Leftover) -> bool
    ensures { result ≡ has_room (view table.now) (meant left) }
{
    match left {
        Leftover::Nothing | Leftover::HiddenIn(_) => true,
        Leftover::MissingIn { parent, .. } | Leftover::BothIn { parent, .. } => room(table, parent),
    }
}

// The node that shows slots from its sibling's fence up, if one does.
fn uncut(left: Leftover) -> Option<u64>
    ensures { result ≡ uncut_in (meant left) }
{
    match left {
        Leftover::MissingIn {
            node,
            trailing: true,
            ..
        } => Some(node),
        _ => None,
    }
}

// The check of one tree: the leftover and the number of nodes reached, if it is sound.
pub fn check_tree(table: &[u64], root: u64) -> Option<Sound>
    requires { header_ok table.now ≡ true }
    ensures { result ≡ checked_tree (view_from table.now root) }
{
    // Fixed memory, no heap.
    let mut marks = Marks {
        bits: [0u64; MARKS],
        uncut: None,
    };
    let seen = walk(table, root, &mut marks.bits)?;
    let leftover = judge(seen.unfinished)?;
    if !has_room(table, leftover) {
        return None;
    }
    marks.uncut = uncut(leftover);
    if !recordings::ok(table, &marks) {
        return None;
    }
    Some(Sound {
        leftover,
        reached: seen.count,
    })
}

// Whether nothing is left.
pub fn is_nothing(left: Leftover) -> bool
    ensures { result ≡ is_nothing (some (meant left)) }
{
    matches!(left, Leftover::Nothing)
}

// The answer for two sound trees that share no node: the whole table has at most one leftover.
fn joined(first: Leftover, second: Leftover, reached: u64) -> Option<Sound>
    ensures { result ≡ joined first second reached }
{
    match (first, second) {
        (Leftover::Nothing, leftover) | (leftover, Leftover::Nothing) => {
            Some(Sound { leftover, reached })
        }
        _ => None,
    }
}

// The whole check, on any slice: the leftover and the number of nodes reached, if the table is sound. Two sound trees share a node
// exactly if they share their last leaf, since siblings and last children lead there from any node.
// 0 in word 3 is no second tree: document 01 says so, and an Option of it would be made here to be taken apart at once.
pub fn check(table: &[u64]) -> Option<Sound>
    ensures { result ≡ checked table.now }
{
    node::header(table).ok()?;
    let first = leaves::word_at(table, 1);
    let second = leaves::word_at(table, 3);
    let one = check_tree(table, first)?;
    if second == 0 {
        return Some(one);
    }
    let two = check_tree(table, second)?;
    if leaves::last_leaf(table, first) == leaves::last_leaf(table, second) {
        return None;
    }
    joined(one.leftover, two.leftover, one.reached + two.reached)
}

// Whether the table is sound.
pub fn is_sound(table: &[u64]) -> bool
    ensures { result ≡ sound table.now }
{
    check(table).is_some()
}
