// The quick deletion: by the leaf and the parent of its way and by the summary, whatever table and summary are.
#![tactic(auto)]

ghost use Rattle.std.specs.Prelude.{◌≡◌, true, Ok, cond, ◌++◌, ◌≤◌, length};
ghost use Rattle.model.specs.Results.{answer_number};
ghost use Rattle.model.specs.Table.{header_ok};
ghost use Rattle.model.specs.Slots.{view, recording_of};
ghost use Rattle.model.specs.Writes.{deletion};
ghost use Rattle.model.specs.Marks.{cleared};
ghost use Rattle.model.specs.Cells.{without};
ghost use Rattle.model.specs.Summary.{summary_words, marks_in, cells_in, cell_of};
ghost use Rattle.model.specs.Summary.{quick_written, quick_table, quick_list, quick_summary};
ghost use Rattle.orders.specs.Desk.{of, Room, Makes};
ghost use Rattle.quick_delete.specs.Finds.{neighbour_there, found_number, found_for, taken_out, Takes};

use model::{Refusal, Written};
use orders::{Pen, Writer};

// What is found before the first store: the leaf for the key and its parent, whether the deletion frees the leaf, and the pointer that it has for
// the key.
#[derive(Clone, Copy)]
struct Found {
    leaf: u64,
    parent: u64,
    frees: bool,
    pointer: Option<u64>,
}

// Whether parent p, which hides nothing, has a slot for leaf x, and the leaf before x lies in the table.
fn neighbour_there(table: &[u64], p: u64, x: u64) -> bool
    requires table_value { header_ok table.now ≡ true }
    requires p_value { ((view table.now).node p).hidden ≡ 0 }
    ensures { result ≡ neighbour_there table.now p x }
{
    let parent = node::read(table, p);
    let at = slots::place(parent.slots, node::word(table, x, 3));
    let neighbour = slots::pointer_before(parent.slots, parent.left, at);
    at < slots::count(parent.slots) && node::in_range(table[2], neighbour)
}

// The tests of the way, and of the leaf before one that is to be freed. 4 comes before 18 and 5, so all of it is looked up first.
fn find(table: &[u64], summary: &[u64], collection: u64, key: u64) -> Result<Found, Refusal>
    ensures number { answer_number result ≡ found_number collection summary.now table.now key }
    ensures found { (f : Found) → result ≡ Ok f → f ≡ found_for collection table.now key }
{
    let way = quick::begin(table, summary, collection, key)?;
    let root = node::root_of(table, collection);
    let leaf = way::on_level(way, 0);
    let parent = way::on_level(way, 1);
    let frees = reach::frees_leaf(table, root, parent, leaf);
    let pointer = quick::held(table, leaf, key);
    if pointer.is_some() && frees && !neighbour_there(table, parent, leaf) {
        return Err(Refusal::NotSound);
    }
    Ok(Found {
        leaf,
        parent,
        frees,
        pointer,
    })
}

// Takes the slot of the key out of its leaf, then frees the leaf, if it is one to be freed.
fn take_out(writer: &mut Writer<'_>, found: Found, key: u64)
    requires takes { Takes writer.old.table.now found key }
    requires room { Room (taken_out writer.old.table.now found key) (of writer.old) }
    ensures { Makes (taken_out writer.old.table.now found key) writer.old writer.new }
{
    shift::shift_out(writer, found.leaf, key);
    if found.frees {
        shift::free_leaf(writer, found.parent, found.leaf);
    }
}

// Takes the mark of a freed leaf and the recording of a pointer out of a summary for so many nodes.
fn forget(summary: &mut [u64], nodes: u64, found: Found, collection: u64, pointer: u64)
    requires summary_len { length summary.old ≡ summary_words nodes }
    requires nodes_value { (1 ≤ nodes) × (nodes ≤ 65535) }
    requires leaf_bound { found.leaf ≤ nodes }
    requires collection_value { (1 ≤ collection) × (collection ≤ 2) }
    ensures { summary.new ≡ cond found.frees (cleared (marks_in nodes summary.old) found.leaf) (marks_in nodes summary.old)
        ++ without (cells_in nodes summary.old) (cell_of collection (recording_of pointer)) }
{
    let (marks, cells) = summary.split_at_mut(quick::mark_words(nodes) as usize);
    if found.frees {
        marks::clear(marks, found.leaf as usize);
    }
    cells::take_out(
        cells,
        pointer::join(pointer::recording(pointer), collection),
    );
}

// The call. Table, list, summary and numbers come one by one, as C hands them in.
pub fn delete(
    table: &mut [u64],
    list: &mut [u64],
    summary: &mut [u64],
    dock: u64,
    collection: u64,
    key: u64,
) -> Written
    ensures value { result ≡ quick_written (deletion collection key) (length list.old) dock summary.old table.old }
    ensures table_after { table.new ≡ quick_table (deletion collection key) (length list.old) dock summary.old table.old }
    ensures list_after { list.new ≡ quick_list (deletion collection key) list.old dock summary.old table.old }
    ensures summary_after { summary.new ≡ quick_summary (deletion collection key) (length list.old) dock summary.old table.old }
{
    let found = find(table, summary, collection, key)?;
    quick::writes(list.len(), dock)?;
    let pointer = found.pointer.ok_or(Refusal::KeyAbsent)?;
    let nodes = table[2];
    let mut writer = Writer {
        table,
        list,
        pen: Pen::new(dock),
    };
    take_out(&mut writer, found, key);
    forget(summary, nodes, found, collection, pointer);
    Ok(writer.finish())
}
