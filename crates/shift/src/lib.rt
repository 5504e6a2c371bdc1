// Shifts, another class, cutting off, a leaf freed, split and new root on the nodes of the working copy: each store is made and listed.
#![tactic(auto)]

ghost use Rattle.std.specs.Prelude.{◌≡◌, true, [], ◌∷◌, ◌++◌, ◌+◌, ◌≤◌, ◌*◌, ◌<◌, length};
ghost use Rattle.model.specs.Table.{MARK, at, has_node};
ghost use Rattle.model.specs.Slots.{view_from, view, height};
ghost use Rattle.model.specs.Orders.{put};
ghost use Rattle.model.specs.Shifts.{place_of};
ghost use Rattle.model.specs.Writes.{shift_in_at, shift_out_at, set_class_at, close_at, put_all, split, new_root_at, cut_off, attach, child_before};
ghost use Rattle.model.specs.Writes.{free_stores};
ghost use Rattle.orders.specs.Desk.{of, Room, Makes};
ghost use Rattle.slots.specs.Scan.{in_use_of};
ghost use Rattle.shift.specs.Stores.{Opens, PlaceOf, slot_in, slot_out, gap_closed, upper_words};

use model::{MARK, Node};
use orders::Writer;

// The first word of the keys, and of the pointers, of a node's slots.
const KEY: usize = 8;

const POINTER: usize = 9;

// A node of the working copy, before the first store to it: where it begins, and what was read there.
#[derive(Drop)]
struct Opened {
    start: usize,
    node: Node,
}

// A place in a node: a key's, or an absent key's, and the pointer before it.
#[derive(Drop)]
struct Place {
    at: usize,
    before: u64,
}

impl Opened {
    fn new(writer: &Writer<'_>, n: u64) -> Self
        requires { has_node writer.now.table.now n ≡ true }
        ensures { Opens writer.now.table.now n result }
    {
        let table = writer.table();
        Opened {
            start: node::start(table, n),
            node: node::read(table, n),
        }
    }

    // The place of key k.
    fn place(&self, k: u64) -> Place
        ensures { PlaceOf self.now k result }
    {
        let slots = self.node.slots;
        let at = slots::place(slots, k);
        Place {
            at,
            before: slots::pointer_before(slots, self.node.left, at),
        }
    }

    // Key or pointer i := x.
    fn put<const HALF: usize>(&self, writer: &mut Writer<'_>, i: usize, x: u64)
        requires { Room (put (self.now.start + (HALF + 2 * i)) x ∷ []) (of writer.old) }
        ensures { Makes (put (self.now.start + (HALF + 2 * i)) x ∷ []) writer.old writer.new }
    {
        writer.store(self.start + (HALF + 2 * i), x);
    }

    // Shifts (k, x) in at its place. The slots from there on move one up, the last first: the pointer, then the key. By place,
    // here and below: a store takes the number of a slot and a word of the one beside it.
    fn slot_in(&self, writer: &mut Writer<'_>, k: u64, x: u64)
        requires { Room (slot_in self.now k x) (of writer.old) }
        ensures { Makes (slot_in self.now k x) writer.old writer.new }
    {
        let Place { at, before } = self.place(k);
        let end = slots::count(self.node.slots);
        self.put::<POINTER>(writer, end + 1, 0);
        for i in (at..end).rev() {
            self.put::<POINTER>(writer, i + 1, self.node.slots[2 * i + 1]);
            self.put::<KEY>(writer, i + 1, self.node.slots[2 * i]);
        }
        self.put::<POINTER>(writer, at, before);
        self.put::<KEY>(writer, at, k);
        self.put::<POINTER>(writer, at, x);
    }

    // Closes the gap at place p: the slots after it move one down, the first first, the key and then the pointer; the last pointer in use becomes 0.
    fn close_gap(&self, writer: &mut Writer<'_>, p: usize)
        requires { Room (gap_closed self.now p) (of writer.old) }
        ensures { Makes (gap_closed self.now p) writer.old writer.new }
    {
        let last = slots::last(self.node.slots);
        for i in p..last {
            self.put::<KEY>(writer, i, self.node.slots[2 * i + 2]);
            self.put::<POINTER>(writer, i, self.node.slots[2 * i + 3]);
        }
        self.put::<POINTER>(writer, last, 0);
    }

    // Shifts the slot of key k out.
    fn slot_out(&self, writer: &mut Writer<'_>, k: u64)
        requires { Room (slot_out self.now k) (of writer.old) }
        ensures { Makes (slot_out self.now k) writer.old writer.new }
    {
        let Place { at, before: hidden } = self.place(k);
        self.put::<POINTER>(writer, at, hidden);
        self.close_gap(writer, at);
    }
}

// ---- on a node of the table
// That a node is there and hides nothing is said of its number and of a table that changes with each store: no type of one of them has it.

// Shifts (k, x) in at its place among the shown slots of node n.
pub fn shift_in(writer: &mut Writer<'_>, n: u64, k: u64, x: u64)
    requires n_value { has_node writer.old.table.now n ≡ true }
    requires n_value_2 { ((view writer.old.table.now).node n).hidden ≡ 0 }
    requires room { Room (shift_in_at writer.old.table.now n k x) (of writer.old) }
    ensures { Makes (shift_in_at writer.old.table.now n k x) writer.old writer.new }
{
    Opened::new(writer, n).slot_in(writer, k, x);
}

// Shifts the slot of key k out of node n.
pub fn shift_out(writer: &mut Writer<'_>, n: u64, k: u64)
    requires n_value { has_node writer.old.table.now n ≡ true }
    requires n_value_2 { ((view writer.old.table.now).node n).hidden ≡ 0 }
    requires room { Room (shift_out_at writer.old.table.now n k) (of writer.old) }
    ensures { Makes (shift_out_at writer.old.table.now n k) writer.old writer.new }
{
    Opened::new(writer, n).slot_out(writer, k);
}

// Gives the slot of key k in node n another class: its pointer := the one with that class.
pub fn set_class(writer: &mut Writer<'_>, n: u64, k: u64, access: u64)
    requires n_value { has_node writer.old.table.now n ≡ true }
    requires n_value_2 { ((view writer.old.table.now).node n).hidden ≡ 0 }
    requires n_in_bounds { place_of k ((view writer.old.table.now).node n).shown < length ((view writer.old.table.now).node n).shown }
    requires access_bound { access ≤ 2 }
    requires room { Room (set_class_at writer.old.table.now n k access) (of writer.old) }
    ensures { Makes (set_class_at writer.old.table.now n k access) writer.old writer.new }
{
    let opened = Opened::new(writer, n);
    let at = slots::place(opened.node.slots, k);
    let x = pointer::with_class(opened.node.slots[2 * at + 1], access);
    opened.put::<POINTER>(writer, at, x);
}

// Closes the hidden slot of node n.
pub fn close(writer: &mut Writer<'_>, n: u64)
    requires n_value { has_node writer.old.table.now n ≡ true }
    requires room { Room (close_at writer.old.table.now n) (of writer.old) }
    ensures { Makes (close_at writer.old.table.now n) writer.old writer.new }
{
    let opened = Opened::new(writer, n);
    let p = slots::hidden_place(opened.node.slots, opened.node.left);
    opened.close_gap(writer, p);
}

// Stores 0 in the pointer of A's first slot from its sibling's fence up.
pub fn cut_off(writer: &mut Writer<'_>, a: u64)
    requires a_value { has_node writer.old.table.now a ≡ true }
    requires a_value_2 { ((view writer.old.table.now).node a).hidden ≡ 0 }
    requires room { Room (cut_off writer.old.table.now a) (of writer.old) }
    ensures { Makes (cut_off writer.old.table.now a) writer.old writer.new }
{
    let opened = Opened::new(writer, a);
    let fence = node::word(writer.table(), opened.node.sibling, 3);
    let p = slots::place(opened.node.slots, fence);
    opened.put::<POINTER>(writer, p, 0);
}

// Shifts B, the sibling of A, in at the parent p.
pub fn attach(writer: &mut Writer<'_>, p: u64, a: u64)
    requires p_value { has_node writer.old.table.now p ≡ true }
    requires p_value_2 { ((view writer.old.table.now).node p).hidden ≡ 0 }
    requires room { Room (attach writer.old.table.now p a) (of writer.old) }
    ensures { Makes (attach writer.old.table.now p a) writer.old writer.new }
{
    let table = writer.table();
    let b = node::word(table, a, 1);
    let fence = node::word(table, b, 3);
    shift_in(writer, p, fence, b);
}

// Cuts A off, then shifts B in at the parent. No call of attach: it would read both nodes after the cut, and to promise what it stores by the
// table before, this would have to ask that the parent is not A.
pub fn cut_attach(writer: &mut Writer<'_>, p: u64, a: u64)
    requires p_value { has_node writer.old.table.now p ≡ true }
    requires p_value_2 { ((view writer.old.table.now).node p).hidden ≡ 0 }
    requires a_value { has_node writer.old.table.now a ≡ true }
    requires a_value_2 { ((view writer.old.table.now).node a).hidden ≡ 0 }
    requires room { Room (cut_off writer.old.table.now a ++ attach writer.old.table.now p a) (of writer.old) }
    ensures { Makes (cut_off writer.old.table.now a ++ attach writer.old.table.now p a) writer.old writer.new }
{
    let table = writer.table();
    let b = node::word(table, a, 1);
    let fence = node::word(table, b, 3);
    let parent = Opened::new(writer, p);
    cut_off(writer, a);
    parent.slot_in(writer, fence, b);
}

// ---- a leaf freed

// Shifts the slot of leaf x out at the parent p, then stores its sibling into its left neighbour's sibling word. Nothing is stored in x.
pub fn free_leaf(writer: &mut Writer<'_>, p: u64, x: u64)
    requires p_value { has_node writer.old.table.now p ≡ true }
    requires p_value_2 { ((view writer.old.table.now).node p).hidden ≡ 0 }
    requires x_value { has_node writer.old.table.now (child_before (view writer.old.table.now) p x) ≡ true }
    requires room { Room (free_stores writer.old.table.now p x) (of writer.old) }
    ensures { Makes (free_stores writer.old.table.now p x) writer.old writer.new }
{
    let table = writer.table();
    let fence = node::word(table, x, 3);
    let sibling = node::word(table, x, 1);
    let parent = Opened::new(writer, p);
    let neighbour = parent.place(fence).before;
    let w = node::start(writer.table(), neighbour);
    parent.slot_out(writer, fence);
    writer.store(w + 1, sibling);
}

// ---- split and new root

// The 32 words of B, where A was read as n: a leaf's upper slots from slot 5 on, an inner node's from slot 6 on; the rest is 0.
// Word by word, here and in `new_root`: one function for both, as the definition `node_words` is, would take five values, of which `new_root` has two.
fn upper_words(n: &Node) -> [u64; 32]
    requires { 6 ≤ length (in_use_of n.now.slots) }
    ensures { result ≡ upper_words n.now }
{
    let (left, from) = if n.level == 0 {
        (MARK, 5)
    } else {
        (n.slots[11], 6)
    };
    let mut words = [0u64; 32];
    words[0] = left;
    words[1] = n.sibling;
    words[2] = n.level;
    words[3] = n.slots[10];
    let used = &n.slots[2 * from..2 * slots::count(n.slots)];
    words[8..8 + used.len()].copy_from_slice(used);
    words
}

// All 32 words of the node that begins at word w, in rising order.
fn put_words(writer: &mut Writer<'_>, w: usize, words: &[u64; 32])
    requires { Room (put_all w words.now) (of writer.old) }
    ensures { Makes (put_all w words.now) writer.old writer.new }
{
    for (j, &word) in words.iter().enumerate() {
        writer.store(w + j, word);
    }
}

// Splits A into B: all words of B; A's sibling := B; A's pointer 5 := 0; B shifted in at the parent p. The nodes are read before the
// first store.
pub fn split(writer: &mut Writer<'_>, a: u64, b: u64, p: u64)
    requires a_value { has_node writer.old.table.now a ≡ true }
    requires a_value_2 { ((view writer.old.table.now).node a).hidden ≡ 0 }
    requires in_bounds { 6 ≤ length ((view writer.old.table.now).node a).shown }
    requires b_value { has_node writer.old.table.now b ≡ true }
    requires p_value { has_node writer.old.table.now p ≡ true }
    requires p_value_2 { ((view writer.old.table.now).node p).hidden ≡ 0 }
    requires room { Room (split writer.old.table.now a b p) (of writer.old) }
    ensures { Makes (split writer.old.table.now a b p) writer.old writer.new }
{
    let full = Opened::new(writer, a);
    let upper = node::start(writer.table(), b);
    let parent = Opened::new(writer, p);
    put_words(writer, upper, &upper_words(&full.node));
    writer.store(full.start + 1, b);
    full.put::<POINTER>(writer, 5, 0);
    parent.slot_in(writer, full.node.slots[10], b);
}

// A new root in node r, of the tree whose root stands in that header word: all its words, with left the old root, one level up; then the
// header word.
pub fn new_root(writer: &mut Writer<'_>, word: usize, r: u64)
    requires word_bound { word ≤ 3 }
    requires r_value { has_node writer.old.table.now r ≡ true }
    requires word_bound_2 { height (view_from writer.old.table.now (at writer.old.table.now word)) < MARK }
    requires room { Room (new_root_at word writer.old.table.now r) (of writer.old) }
    ensures { Makes (new_root_at word writer.old.table.now r) writer.old writer.new }
{
    let table = writer.table();
    let w = node::start(table, r);
    let root = table[word];
    let level = node::word(table, root, 2);
    let mut words = [0u64; 32];
    words[0] = root;
    words[2] = level + 1;
    put_words(writer, w, &words);
    writer.store(word, r);
}
