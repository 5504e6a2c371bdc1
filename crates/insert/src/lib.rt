// The insertion call: repair, a new root if the run of full nodes includes the root, the splits of the run, the pair shifted in.
#![tactic(auto)]

ghost use Rattle.std.specs.Prelude.{◌≡◌, true, false, cond, ◌+◌, ◌≤◌, length};
ghost use Rattle.model.specs.Table.{no_collection};
ghost use Rattle.model.specs.Slots.{pointer_of, view_from};
ghost use Rattle.model.specs.Reached.{mapping, map_of, reached_all};
ghost use Rattle.model.specs.SoundTest.{sound_view, sound};
ghost use Rattle.model.specs.Writes.{splits, root_stores, insert_settled, insertion};
ghost use Rattle.model.specs.Results.{passed};
ghost use Rattle.model.specs.Refusals.{has_recording, words_for, written, table_after, list_after};
ghost use Rattle.two_laws.specs.Parts.{split_for, Splittable, Ready};
ghost use Rattle.reach.specs.Marks.{Marked};
ghost use Rattle.sound.specs.Checked.{meant};
ghost use Rattle.orders.specs.Desk.{of, Room, Makes};
ghost use Rattle.insert.specs.Tests.{parent_of, high_run, few_for, number_for};
ghost use Rattle.insert.specs.Parts.{Growable, Enterable};
ghost use Rattle.insert.specs.Entered.{Found, call_of, as_written, Reaches};

use model::{Counts, Outcome, Refusal, Written};
use orders::{Pen, Writer};
use reach::Run;
use sound::{Leftover, Sound};

// What an insertion into a table that is known to be sound comes to: what its order list has, and how many nodes are reached after it.
#[derive(Clone, Copy)]
pub struct Entered {
    pub counts: Counts,
    pub reached: u64,
}

// What goes into a collection: a key with a recording and its class. The collection is a number, for so C hands it in, here and below.
#[derive(Clone, Copy)]
pub struct Insertion {
    pub collection: u64,
    pub key: u64,
    pub recording: u64,
    pub access: u64,
}

// ---- the tests from 6 on

// The parent that repair will give a slot, if it gives one.
fn parent_of(left: Leftover) -> Option<u64>
    ensures { result ≡ parent_of (meant left) }
{
    match left {
        Leftover::Nothing | Leftover::HiddenIn(_) => None,
        Leftover::MissingIn { parent, .. } | Leftover::BothIn { parent, .. } => Some(parent),
    }
}

// Whether the map of the tree under a root has the recording number.
// That the tree is sound is a clause: a `Tree<'a> { table, root }` with the fact as a ghost field would be made for one call by each caller, and taken
// apart here, for `leaves` takes a table and a root's number (decision 351).
pub fn has_recording(table: &[u64], root: u64, recording: u64) -> bool
    requires { sound_view (view_from table.now root) ≡ true }
    ensures { result ≡ has_recording recording (mapping (view_from table.now root)) }
{
    leaves::find_recording(table, root, recording).is_some()
}

// Whether the run includes a root at level 15.
fn too_high(table: &[u64], root: u64, run: Run) -> bool
    ensures { result ≡ high_run (view_from table.now root) run }
{
    run.root && node::word(table, root, 2) == 15
}

// Whether so many unreachable nodes are fewer than the run's length, plus 1 for a new root. No method of Run for the sum, here and
// in reached_after: no clause bounds the length of a run here, so it would have to ask that the sum fits.
fn too_few(free: u64, run: Run) -> bool
    ensures { result ≡ few_for free run }
{
    if run.root {
        free <= run.length
    } else {
        free < run.length
    }
}

// The refusal of the first test from 6 on that holds, if one does; 10 counts the nodes that neither root reaches. `known` is no switch: it is what
// the caller found out, whether the map has the recording; a batch finds it out for many pairs at once.
// What the check found is said of this table, and each store makes another of it: so it is a clause here and below, and no type.
fn may_insert_known(table: &[u64], x: Insertion, run: Run, count: u64, known: bool) -> Outcome
    requires table_value { no_collection x.collection table.now ≡ false }
    requires table_value_2 { sound table.now ≡ true }
    requires count_value { count ≡ length (reached_all table.now) }
    requires known_value { known ≡ has_recording x.recording (map_of x.collection table.now) }
    ensures { result ≡ passed (number_for x.collection table.now x.key x.recording x.access run) }
{
    let root = node::root_of(table, x.collection);
    if !pointer::recording_ok(x.recording) {
        return Err(Refusal::BadRecording);
    }
    if !pointer::class_ok(x.access) {
        return Err(Refusal::BadClass);
    }
    if write::has_key(table, root, x.key) {
        return Err(Refusal::KeyPresent);
    }
    if known {
        return Err(Refusal::RecordingPresent);
    }
    if too_high(table, root, run) {
        return Err(Refusal::TooHigh);
    }
    if too_few(reach::unreachable(table, count), run) {
        return Err(Refusal::NoNodes);
    }
    Ok(())
}

// The same if the recording is still to be looked for.
pub fn may_insert(table: &[u64], x: Insertion, run: Run, count: u64) -> Outcome
    requires table_value { no_collection x.collection table.now ≡ false }
    requires table_value_2 { sound table.now ≡ true }
    requires count_value { count ≡ length (reached_all table.now) }
    ensures { result ≡ passed (number_for x.collection table.now x.key x.recording x.access run) }
{
    let known = has_recording(table, node::root_of(table, x.collection), x.recording);
    may_insert_known(table, x, run, count, known)
}

// ---- into a settled table

// A new root of the collection's tree, if the run includes the root. The marks lie beside the writer, here and below: an insertion alone has them,
// and a batch keeps them from pair to pair.
fn grow(writer: &mut Writer<'_>, marks: &mut [u64; reach::MARKS], x: Insertion, run: Run)
    requires growable { Growable x.collection writer.old.table.now x.key run.root }
    requires room { Room (root_stores x.collection writer.old.table.now x.key) (of writer.old) }
    requires marked { Marked writer.old.table.now marks.old }
    ensures stores { Makes (root_stores x.collection writer.old.table.now x.key) writer.old writer.new }
    ensures marked_2 { Marked writer.old.table.now marks.new }
{
    if run.root {
        let table = writer.table();
        let root = node::root_of(table, x.collection);
        let fresh = reach::fresh(table, marks, root);
        shift::new_root(writer, 2 * x.collection as usize - 1, fresh);
    }
}

// Splits the node on level l of the collection's tree that the search for the key stands on.
fn split_at(writer: &mut Writer<'_>, marks: &mut [u64; reach::MARKS], x: Insertion, l: u64)
    requires splittable { Splittable x.collection writer.old.table.now x.key l }
    requires room { Room (split_for x.collection writer.old.table.now l x.key) (of writer.old) }
    requires marked { Marked writer.old.table.now marks.old }
    ensures stores { Makes (split_for x.collection writer.old.table.now l x.key) writer.old writer.new }
    ensures marked_2 { Marked writer.old.table.now marks.new }
{
    let table = writer.table();
    let root = node::root_of(table, x.collection);
    let a = reach::standing(table, root, l, x.key);
    let b = reach::fresh(table, marks, a);
    let parent = reach::standing(table, root, l + 1, x.key);
    shift::split(writer, a, b, parent);
}

// Splits the run's nodes, from the highest down.
fn split_run(writer: &mut Writer<'_>, marks: &mut [u64; reach::MARKS], x: Insertion, count: u64)
    requires ready { Ready count x.collection writer.old.table.now x.key }
    requires room { Room (splits x.collection count writer.old.table.now x.key) (of writer.old) }
    requires marked { Marked writer.old.table.now marks.old }
    ensures stores { Makes (splits x.collection count writer.old.table.now x.key) writer.old writer.new }
    ensures marked_2 { Marked writer.new.table.now marks.new }
{
    for l in (0..count).rev() {
        split_at(writer, marks, x, l);
    }
}

// Inserts the pair into a collection of a settled table that has room for it.
fn enter(writer: &mut Writer<'_>, marks: &mut [u64; reach::MARKS], x: Insertion, run: Run)
    requires enterable { Enterable x.collection writer.old x.key x.recording x.access run }
    requires marked { Marked writer.old.table.now marks.old }
    ensures stores { Makes (insert_settled x.collection writer.old.table.now x.key (pointer_of x.recording x.access)) writer.old writer.new }
    ensures marked_2 { Marked writer.new.table.now marks.new }
{
    grow(writer, marks, x, run);
    split_run(writer, marks, x, run.length);
    let table = writer.table();
    let root = node::root_of(table, x.collection);
    let leaf = reach::standing(table, root, 0, x.key);
    shift::shift_in(writer, leaf, x.key, pointer::join(x.recording, x.access));
}

// How many nodes are reached after an insertion with this run.
fn reached_after(reached: u64, run: Run) -> u64
    requires { reached + (run.length + cond run.root 1 0) ≤ 65535 }
    ensures { result ≡ reached + (run.length + cond run.root 1 0) }
{
    reached + run.length + u64::from(run.root)
}

// ---- the call

// The insertion into a table that was found sound, with a list that is long enough for the dock, if it is known whether the map has the
// recording. Marks of reached nodes stay so: an insertion frees none. The dock is the call's number, 0 or 1, by which the definitions say what the
// call writes; the pen makes an enum of it.
pub fn insert_known(
    table: &mut [u64],
    list: &mut [u64],
    marks: &mut [u64; reach::MARKS],
    dock: u64,
    x: Insertion,
    checked: Sound,
    known: bool,
) -> Result<Entered, Refusal>
    requires found { Found table.old checked }
    requires table_value { no_collection x.collection table.old ≡ false }
    requires dock_bound { dock ≤ 1 }
    requires dock_in_bounds { words_for dock ≤ length list.old }
    requires known_value { known ≡ has_recording x.recording (map_of x.collection table.old) }
    requires marked { Marked table.old marks.old }
    ensures result_value { as_written result ≡ written (call_of x) (length list.old) dock table.old }
    ensures table_after { table.new ≡ table_after (call_of x) (length list.old) dock table.old }
    ensures list_after { list.new ≡ list_after (call_of x) list.old dock table.old }
    ensures counts { Reaches result table.new }
    ensures marked_2 { Marked table.new marks.new }
{
    let root = node::root_of(table, x.collection);
    let run = reach::full_run(table, root, x.key, parent_of(checked.leftover));
    may_insert_known(table, x, run, checked.reached, known)?;
    let mut writer = Writer {
        table,
        list,
        pen: Pen::new(dock),
    };
    write::mend(&mut writer, checked.leftover);
    enter(&mut writer, marks, x, run);
    Ok(Entered {
        counts: writer.finish(),
        reached: reached_after(checked.reached, run),
    })
}

// The insertion call. Table, list and numbers come one by one, as C hands them in.
pub fn insert(
    table: &mut [u64],
    list: &mut [u64],
    dock: u64,
    collection: u64,
    key: u64,
    recording: u64,
    access: u64,
) -> Written
    ensures value { result ≡ written (insertion collection key recording access) (length list.old) dock table.old }
    ensures table_after { table.new ≡ table_after (insertion collection key recording access) (length list.old) dock table.old }
    ensures list_after { list.new ≡ list_after (insertion collection key recording access) list.old dock table.old }
{
    let checked = write::judge(table, collection, list.len(), dock)?;
    let known = has_recording(table, node::root_of(table, collection), recording);
    // A bit for each node that a table may have: memory is fixed, there is no heap.
    let mut marks = [0u64; reach::MARKS];
    let x = Insertion {
        collection,
        key,
        recording,
        access,
    };
    let entered = insert_known(table, list, &mut marks, dock, x, checked, known)?;
    Ok(entered.counts)
}
