// The deletion call: repair, then the slot of the key is shifted out of its leaf; a leaf that this empties is freed, unless it is its
// parent's leftmost child or the root.
#![tactic(auto)]

ghost use Rattle.std.specs.Prelude.{◌≡◌, true, false, length};
ghost use Rattle.model.specs.Table.{no_collection};
ghost use Rattle.model.specs.Reached.{map_of};
ghost use Rattle.model.specs.SoundTest.{settled};
ghost use Rattle.model.specs.Writes.{delete_settled, deletion};
ghost use Rattle.model.specs.Refusals.{has_key, written, table_after, list_after};
ghost use Rattle.orders.specs.Desk.{of, Room, Makes};

use model::{Refusal, Written};
use orders::{Pen, Writer};
use sound::Sound;

// The stores after the repair. Leaf and parent are looked up before the first of them. What is said of the table before a store is a clause: no
// type has it, since the store makes another table.
fn take_out(writer: &mut Writer<'_>, collection: u64, key: u64)
    requires table_value { no_collection collection writer.old.table.now ≡ false }
    requires table_value_2 { settled writer.old.table.now ≡ true }
    requires table_value_3 { has_key key (map_of collection writer.old.table.now) ≡ true }
    requires room { Room (delete_settled collection writer.old.table.now key) (of writer.old) }
    ensures { Makes (delete_settled collection writer.old.table.now key) writer.old writer.new }
{
    let table = writer.table();
    let root = node::root_of(table, collection);
    let leaf = reach::standing(table, root, 0, key);
    let parent = reach::standing(table, root, 1, key);
    let frees = reach::frees_leaf(table, root, parent, leaf);
    shift::shift_out(writer, leaf, key);
    if frees {
        shift::free_leaf(writer, parent, leaf);
    }
}

// The deletion call. Table, list and numbers come one by one, as C hands them in.
pub fn delete(table: &mut [u64], list: &mut [u64], dock: u64, collection: u64, key: u64) -> Written
    ensures value { result ≡ written (deletion collection key) (length list.old) dock table.old }
    ensures table_after { table.new ≡ table_after (deletion collection key) (length list.old) dock table.old }
    ensures list_after { list.new ≡ list_after (deletion collection key) list.old dock table.old }
{
    let Sound { leftover, .. } = write::judge(table, collection, list.len(), dock)?;
    if !write::has_key(table, node::root_of(table, collection), key) {
        return Err(Refusal::KeyAbsent);
    }
    let mut writer = Writer {
        table,
        list,
        pen: Pen::new(dock),
    };
    write::mend(&mut writer, leftover);
    take_out(&mut writer, collection, key);
    Ok(writer.finish())
}
