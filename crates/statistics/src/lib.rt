// The check of a whole table as a call: whether it is sound, what is left over, and how much of it each collection uses.
#![tactic(auto)]

ghost use Rattle.std.specs.Prelude.{◌≡◌, true, cond, ◌+◌, ◌≤◌, length, replicate, eqb};
ghost use Rattle.std.proofs.Math.Option.{some};
ghost use Rattle.model.specs.Table.{at, header_ok};
ghost use Rattle.model.specs.Slots.{view_of, view_from, view};
ghost use Rattle.model.specs.Reached.{flat, kept, mapping, reached, reached_all};
ghost use Rattle.model.specs.SoundTest.{leftover, is_nothing, sound_view, sound};
ghost use Rattle.walk_laws.specs.Chain.{along};
ghost use Rattle.sound.specs.Checked.{meant, found, checked};
ghost use Rattle.model.specs.Statistics.{checking, hidden_slot, trailing_slots, left_words, left_in, tree_words, report, report_out};
ghost use Rattle.statistics.specs.Parts.{left_part, tree_part};

use leaves::Siblings;
use model::{Outcome, Refusal};
use sound::{Leftover, Sound};

// ---- the codes

// The codes in the leaves from the first along the siblings, at most so many leaves.
fn codes_along(table: &[u64], first: u64, most: u64) -> u64
    requires { most ≤ 65535 }
    ensures { result ≡ length (flat (kept (view table.now)) (along (view table.now) most first)) }
{
    Siblings::new(table, first, most)
        .map(|leaf| reach::kept_count(table, leaf))
        .sum()
}

// The codes of a tree's map.
// That the tree is sound is a clause, here and below: a struct of table and root with the fact as a ghost field would be no plainer: made by each
// caller for one call, and taken apart for `leaves` and `node`, which take a table and a node.
fn codes_of(table: &[u64], root: u64) -> u64
    requires table_value { header_ok table.now ≡ true }
    requires root_value { sound_view (view_from table.now root) ≡ true }
    ensures { result ≡ length (mapping (view_from table.now root)) }
{
    let first = leaves::first_leaf(table, root);
    let most = leaves::word_at(table, 2);
    codes_along(table, first, most)
}

// ---- one collection

// What a collection has: nodes reached, codes in its map, levels.
#[derive(Clone, Copy)]
struct Tree {
    nodes: u64,
    codes: u64,
    levels: u64,
}

// Of the tree of this root, in which so many nodes are reached.
fn tree_of(table: &[u64], root: u64, nodes: u64) -> Tree
    requires table_value { header_ok table.now ≡ true }
    requires root_value { sound_view (view_from table.now root) ≡ true }
    requires nodes_value { nodes ≡ length (reached (view_from table.now root)) }
    ensures { tree_part result ≡ tree_words (view_from table.now root) }
{
    let codes = codes_of(table, root);
    let top = node::word(table, root, 2);
    Tree {
        nodes,
        codes,
        levels: top + 1,
    }
}

// Of the second collection, which has so many nodes; zeros, as the report has them, if there is none. 0 in word 3 is no
// second tree, here and below: document 01 says so, and each reads it once. The zeros stand written: they are the report's, and a derived Default would
// not show them.
fn second_tree(table: &[u64], nodes: u64) -> Tree
    requires table_value { sound table.now ≡ true }
    requires nodes_len { length (reached (view_of 1 table.now)) + nodes ≡ length (reached_all table.now) }
    ensures { tree_part result ≡ cond (eqb (at table.now 3) 0) (replicate 3 0) (tree_words (view_of 2 table.now)) }
{
    let root = leaves::word_at(table, 3);
    if root == 0 {
        return Tree {
            nodes: 0,
            codes: 0,
            levels: 0,
        };
    }
    tree_of(table, root, nodes)
}

// ---- what is left over

// The kind of a leftover, by its number in the report.
#[derive(Clone, Copy)]
enum Kind {
    Nothing = 0,
    Hidden = 1,
    Missing = 2,
    Both = 3,
}

impl From<Kind> for u64 {
    ghost use Rattle.statistics.specs.Parts.{kind_number};

    ghost from_gives = { λ k n. n ≡ kind_number k };

    fn from(kind: Kind) -> u64 {
        kind as u64
    }
}

// Document 01's leftover as the report has it: its kind, its collection; the node with the hidden slot, and the slot; the node that lacks its
// slot in the parent, its left neighbour, and the parent; the slots that the neighbour shows from the node's fence up. What a kind has not is
// 0, a word of the report.
#[derive(Clone, Copy)]
struct Left {
    kind: Kind,
    collection: u64,
    hidden: u64,
    slot: u64,
    node: u64,
    neighbour: u64,
    parent: u64,
    trailing: u64,
}

// Written out: a derived Default for Left would need one for Kind, and say no more of these zeros than this does.
const NONE: Left = Left {
    kind: Kind::Nothing,
    collection: 0,
    hidden: 0,
    slot: 0,
    node: 0,
    neighbour: 0,
    parent: 0,
    trailing: 0,
};

// The hidden slot of node n.
fn hidden_slot(table: &[u64], n: u64) -> u64
    ensures { result ≡ hidden_slot table.now n }
{
    let x = node::read(table, n);
    slots::hidden_place(x.slots, x.left) as u64
}

// How many slots node n shows from its sibling's fence up.
fn trailing_slots(table: &[u64], n: u64) -> u64
    ensures { result ≡ trailing_slots table.now n }
{
    let shown = reach::shown_count(table, n);
    shown - reach::kept_count(table, n)
}

// The leftover of a collection.
fn left_of(table: &[u64], collection: u64, left: Leftover) -> Left
    ensures { left_part result ≡ left_words table.now collection (meant left) }
{
    match left {
        Leftover::Nothing => NONE,
        Leftover::HiddenIn(x) => Left {
            kind: Kind::Hidden,
            collection,
            hidden: x,
            slot: hidden_slot(table, x),
            ..NONE
        },
        Leftover::MissingIn {
            parent,
            node: a,
            ..
        } => Left {
            kind: Kind::Missing,
            collection,
            node: node::word(table, a, 1),
            neighbour: a,
            parent,
            trailing: trailing_slots(table, a),
            ..NONE
        },
        Leftover::BothIn { parent, node: a } => Left {
            kind: Kind::Both,
            collection,
            hidden: parent,
            slot: hidden_slot(table, parent),
            node: node::word(table, a, 1),
            neighbour: a,
            parent,
            trailing: 0,
        },
    }
}

// ---- the whole table

// The nodes of the first collection, and which collection has the leftover of the table.
#[derive(Clone, Copy)]
struct First {
    nodes: u64,
    left_in: u64,
}

// The collection that has the leftover, if this is the first one's.
fn collection_of(left: Leftover) -> u64
    ensures { result ≡ cond (is_nothing (some (meant left))) 2 1 }
{
    if sound::is_nothing(left) { 2 } else { 1 }
}

// Of a sound table, as its check found it. If it has two collections, the first tree is checked once more: the check of the table counts the
// nodes of both together. A sound table has a sound first tree: None does not come.
fn first_tree(table: &[u64], whole: Sound) -> First
    requires { checked table.now ≡ found whole.leftover whole.reached }
    ensures nodes_value { result.nodes ≡ length (reached (view_of 1 table.now)) }
    ensures left_in_value { result.left_in ≡ left_in table.now }
{
    if leaves::word_at(table, 3) == 0 {
        return First {
            nodes: whole.reached,
            left_in: collection_of(whole.leftover),
        };
    }
    let root = leaves::word_at(table, 1);
    match sound::check_tree(table, root) {
        Some(Sound { leftover, reached }) => First {
            nodes: reached,
            left_in: collection_of(leftover),
        },
        None => First {
            nodes: 0,
            left_in: 0,
        },
    }
}

// The report of a sound table, as its check found it. Word by word: C reads each at the place that include/catalogue.h gives it.
fn report_of(table: &[u64], whole: Sound) -> [u64; 16]
    requires { checked table.now ≡ found whole.leftover whole.reached }
    ensures { result ≡ report table.now }
{
    let first = first_tree(table, whole);
    let nodes = first.nodes;
    let x = left_of(table, first.left_in, whole.leftover);
    let size = leaves::word_at(table, 2);
    let free = reach::unreachable(table, whole.reached);
    let root = leaves::word_at(table, 1);
    let one = tree_of(table, root, nodes);
    let two = second_tree(table, whole.reached - nodes);
    [
        u64::from(x.kind),
        x.collection,
        x.hidden,
        x.slot,
        x.node,
        x.neighbour,
        x.parent,
        x.trailing,
        size,
        free,
        one.nodes,
        one.codes,
        one.levels,
        two.nodes,
        two.codes,
        two.levels,
    ]
}

// Checks the whole table and writes its report; 2 for no table, 4 for one that is not sound. A refusal changes no word.
pub fn check(table: &[u64], out: &mut [u64; 16]) -> Outcome
    ensures value { result ≡ checking table.now }
    ensures out_after { out.new ≡ report_out table.now out.old }
{
    node::header(table)?;
    let whole = sound::check(table).ok_or(Refusal::NotSound)?;
    *out = report_of(table, whole);
    Ok(())
}
