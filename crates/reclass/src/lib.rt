// The class change call: repair, then the class is stored in the pointer of the key's slot.
#![tactic(auto)]

ghost use Rattle.std.specs.Prelude.{◌≡◌, length};
ghost use Rattle.model.specs.Writes.{class_change};
ghost use Rattle.model.specs.Refusals.{written, table_after, list_after};

use model::{Refusal, Written};
use orders::{Pen, Writer};
use sound::Sound;

// The call. Table, list and numbers come one by one, as C hands them in.
pub fn set_class(
    table: &mut [u64],
    list: &mut [u64],
    dock: u64,
    collection: u64,
    key: u64,
    access: u64,
) -> Written
    ensures value { result ≡ written (class_change collection key access) (length list.old) dock table.old }
    ensures table_after { table.new ≡ table_after (class_change collection key access) (length list.old) dock table.old }
    ensures list_after { list.new ≡ list_after (class_change collection key access) list.old dock table.old }
{
    let Sound { leftover, .. } = write::judge(table, collection, list.len(), dock)?;
    if !pointer::class_ok(access) {
        return Err(Refusal::BadClass);
    }
    if !write::has_key(table, node::root_of(table, collection), key) {
        return Err(Refusal::KeyAbsent);
    }
    let mut writer = Writer {
        table,
        list,
        pen: Pen::new(dock),
    };
    write::mend(&mut writer, leftover);
    let table = writer.table();
    let root = node::root_of(table, collection);
    let leaf = reach::standing(table, root, 0, key);
    shift::set_class(&mut writer, leaf, key, access);
    Ok(writer.finish())
}
