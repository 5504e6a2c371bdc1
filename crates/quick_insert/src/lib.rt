// The quick insertion: its tests by the way and the summary, a new root if the run of full nodes includes the root, the splits of the run, each into
// the next node that the summary does not mark, and the pair shifted in.
#![tactic(auto)]

ghost use Rattle.std.specs.Prelude.{◌≡◌, cond, ◌&&◌, [], suc, ◌+◌, ◌*◌, ◌<◌, ◌≤◌, eqb, ltb, length};
ghost use Rattle.model.specs.Results.{passed};
ghost use Rattle.model.specs.Table.{nodes as nodes_of};
ghost use Rattle.model.specs.Writes.{insertion};
ghost use Rattle.model.specs.Refusals.{first_number};
ghost use Rattle.model.specs.Summary.{full_node, roomy, can_split, going, split_way, start_way, way_made, quick_insert, own_tests};
ghost use Rattle.model.specs.Summary.{quick_written, quick_table, quick_list, quick_summary};
ghost use Rattle.orders.specs.Desk.{of, Room, Makes};
ghost use Rattle.insert.specs.Entered.{call_of};
ghost use Rattle.way.specs.Ways.{Along};

use insert::Insertion;
use model::{Outcome, Refusal, Written};
use orders::{Pen, Writer};
use way::Way;

// ---- the tests from 6 on

// Whether the run of full nodes includes the root.
fn takes_root(way: Way) -> bool
    requires { way.height ≤ 15 }
    ensures { result ≡ eqb way.run (suc way.height) }
{
    way.run == way.height + 1
}

// Whether it includes a root at level 15.
fn too_high(way: Way) -> bool
    requires { way.height ≤ 15 }
    ensures { result ≡ (eqb way.run (suc way.height) && eqb way.height 15) }
{
    takes_root(way) && way.height == 15
}

// How many fresh nodes an insertion needs: the run's length, plus 1 for a new root.
fn needed(way: Way) -> u64
    requires height_bound { way.height ≤ 15 }
    requires run_bound { way.run ≤ suc way.height }
    ensures { result ≡ way.run + cond (eqb way.run (suc way.height)) 1 0 }
{
    way.run + u64::from(takes_root(way))
}

// The refusal of the first test from 6 on that holds, if one does: 7 by the leaf, 8 by the cells, 11 by the way, 10 by the marks.
fn may_insert(table: &[u64], marks: &[u64], cells: &[u64], x: Insertion, way: Way) -> Outcome
    requires along { Along x.collection marks.now table.now x.key way }
    requires nodes_bound { nodes_of table.now < 64 * length marks.now }
    requires cells_nonzero { 0 < length cells.now }
    ensures { result ≡ passed (first_number (own_tests (call_of x) marks.now cells.now table.now)) }
{
    if !pointer::recording_ok(x.recording) {
        return Err(Refusal::BadRecording);
    }
    if !pointer::class_ok(x.access) {
        return Err(Refusal::BadClass);
    }
    if quick::has_key(table, way::on_level(way, 0), x.key) {
        return Err(Refusal::KeyPresent);
    }
    if cells::holds(cells, pointer::join(x.recording, x.collection)) {
        return Err(Refusal::RecordingPresent);
    }
    if too_high(way) {
        return Err(Refusal::TooHigh);
    }
    if marks::few(marks, table[2], needed(way)) {
        return Err(Refusal::NoNodes);
    }
    Ok(())
}

// ---- the splits of the run

// Whether node a is one of so many, hides nothing and is full. The number of nodes goes beside the table, here and below, as in the definitions: each
// split makes another table, of as many nodes.
fn full_node(table: &[u64], nodes: u64, a: u64) -> bool
    ensures { result ≡ full_node nodes table.now a }
{
    node::in_range(nodes, a) && way::plain_count(table, a) == Some(11)
}

// Whether node p is one of so many, hides nothing and shows at most 10 slots.
fn roomy(table: &[u64], nodes: u64, p: u64) -> bool
    ensures { result ≡ roomy nodes table.now p }
{
    node::in_range(nodes, p) && way::plain_count(table, p).is_some_and(|shown| shown <= 10)
}

// Whether node a, which is full, can be split into b under p.
fn can_split(table: &[u64], nodes: u64, a: u64, b: u64, p: u64) -> bool
    ensures { result ≡ can_split nodes table.now a b p }
{
    node::in_range(nodes, b) && full_node(table, nodes, a) && roomy(table, nodes, p)
}

// The half of a split node that takes the key's slot.
fn half(key: u64, fence: u64, a: u64, b: u64) -> u64
    ensures { result ≡ cond (ltb key fence) a b }
{
    if key < fence { a } else { b }
}

// Splits the nodes of the run, the highest first, each into the next node that is not marked. The first new slot goes under the given node,
// each later one under the half of a split node that takes the key. The answer is the node that takes the next slot.
fn split_run(
    writer: &mut Writer<'_>,
    marks: &mut [u64],
    under: u64,
    nodes: u64,
    key: u64,
    run: &[u64],
) -> u64
    requires table_len { length writer.old.table.now ≡ 8 + 32 * nodes }
    requires nodes_bound { nodes ≤ 65535 }
    requires nodes_bound_2 { nodes < 64 * length marks.old }
    requires room { Room (split_way nodes key run.now (going [] writer.old.table.now marks.old under)).stores (of writer.old) }
    ensures stores { Makes (split_way nodes key run.now (going [] writer.old.table.now marks.old under)).stores writer.old writer.new }
    ensures marks_after { marks.new ≡ (split_way nodes key run.now (going [] writer.old.table.now marks.old under)).marks }
    ensures under_value { result ≡ (split_way nodes key run.now (going [] writer.old.table.now marks.old under)).under }
{
    let mut p = under;
    for &a in run {
        let table = writer.table();
        if !full_node(table, nodes, a) {
            return p;
        }
        let b = marks::free_after(marks, nodes, a);
        if !can_split(table, nodes, a, b, p) {
            return p;
        }
        let fence = node::word(table, a, 18);
        shift::split(writer, a, b, p);
        bits::put(marks, b as usize);
        p = half(key, fence, a, b);
    }
    p
}

// ---- the stores

// A new root, if the run includes the root. The answer is the node that takes the first slot: it, or else the node above the run, which is the leaf if
// there is no run.
fn grow(writer: &mut Writer<'_>, marks: &mut [u64], x: Insertion, way: Way) -> u64
    requires along { Along x.collection marks.old writer.old.table.now x.key way }
    requires nodes_bound { nodes_of writer.old.table.now < 64 * length marks.old }
    requires room { Room (start_way x.collection marks.old writer.old.table.now x.key).stores (of writer.old) }
    ensures stores { Makes (start_way x.collection marks.old writer.old.table.now x.key).stores writer.old writer.new }
    ensures marks_after { marks.new ≡ (start_way x.collection marks.old writer.old.table.now x.key).marks }
    ensures under_value { result ≡ (start_way x.collection marks.old writer.old.table.now x.key).under }
{
    let above = way::on_level(way, way.run);
    if !takes_root(way) {
        return above;
    }
    let table = writer.table();
    let nodes = table[2];
    let fresh = marks::free_after(marks, nodes, node::root_of(table, x.collection));
    if !node::in_range(nodes, fresh) {
        return above;
    }
    shift::new_root(writer, 2 * x.collection as usize - 1, fresh);
    bits::put(marks, fresh as usize);
    fresh
}

// A new root and the splits, then the pair shifted in.
fn enter(writer: &mut Writer<'_>, marks: &mut [u64], x: Insertion, pointer: u64, way: Way)
    requires along { Along x.collection marks.old writer.old.table.now x.key way }
    requires nodes_bound { nodes_of writer.old.table.now < 64 * length marks.old }
    requires room { Room (quick_insert x.collection marks.old writer.old.table.now x.key pointer) (of writer.old) }
    ensures stores { Makes (quick_insert x.collection marks.old writer.old.table.now x.key pointer) writer.old writer.new }
    ensures marks_after { marks.new ≡ (way_made x.collection marks.old writer.old.table.now x.key).marks }
{
    let nodes = writer.table()[2];
    let under = grow(writer, marks, x, way);
    let end = way.height as usize + 1;
    let first = end - way.run as usize;
    let run = &way.nodes[first..end];
    let taker = split_run(writer, marks, under, nodes, x.key, run);
    if roomy(writer.table(), nodes, taker) {
        shift::shift_in(writer, taker, x.key, pointer);
    }
}

// ---- the call

// The insertion with a summary. Table, list, summary and numbers come one by one, as C hands them in.
pub fn insert(
    table: &mut [u64],
    list: &mut [u64],
    summary: &mut [u64],
    dock: u64,
    collection: u64,
    key: u64,
    recording: u64,
    access: u64,
) -> Written
    ensures value { result ≡ quick_written (insertion collection key recording access) (length list.old) dock summary.old table.old }
    ensures table_after { table.new ≡ quick_table (insertion collection key recording access) (length list.old) dock summary.old table.old }
    ensures list_after { list.new ≡ quick_list (insertion collection key recording access) list.old dock summary.old table.old }
    ensures summary_after { summary.new ≡ quick_summary (insertion collection key recording access) (length list.old) dock summary.old table.old }
{
    let way = quick::begin(table, summary, collection, key)?;
    quick::writes(list.len(), dock)?;
    let x = Insertion {
        collection,
        key,
        recording,
        access,
    };
    let (marks, cells) = summary.split_at_mut(quick::mark_words(table[2]) as usize);
    may_insert(table, marks, cells, x, way)?;
    let mut writer = Writer {
        table,
        list,
        pen: Pen::new(dock),
    };
    enter(&mut writer, marks, x, pointer::join(recording, access), way);
    cells::enter(cells, pointer::join(recording, collection));
    Ok(writer.finish())
}
