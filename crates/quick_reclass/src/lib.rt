// The quick class change: by the leaf of its way, whatever table and summary are. The summary stays as it is.
#![tactic(auto)]

ghost use Rattle.std.specs.Prelude.{◌≡◌, length};
ghost use Rattle.model.specs.Writes.{class_change};
ghost use Rattle.model.specs.Summary.{quick_written, quick_table, quick_list};

use model::{Refusal, Written};
use orders::{Pen, Writer};

// The call. Table, list, summary and numbers come one by one, as C hands them in.
pub fn set_class(
    table: &mut [u64],
    list: &mut [u64],
    summary: &[u64],
    dock: u64,
    collection: u64,
    key: u64,
    access: u64,
) -> Written
    ensures value { result ≡ quick_written (class_change collection key access) (length list.old) dock summary.now table.old }
    ensures table_after { table.new ≡ quick_table (class_change collection key access) (length list.old) dock summary.now table.old }
    ensures list_after { list.new ≡ quick_list (class_change collection key access) list.old dock summary.now table.old }
{
    let way = quick::begin(table, summary, collection, key)?;
    quick::writes(list.len(), dock)?;
    if !pointer::class_ok(access) {
        return Err(Refusal::BadClass);
    }
    let leaf = way::on_level(way, 0);
    if !quick::has_key(table, leaf, key) {
        return Err(Refusal::KeyAbsent);
    }
    let mut writer = Writer {
        table,
        list,
        pen: Pen::new(dock),
    };
    shift::set_class(&mut writer, leaf, key, access);
    Ok(writer.finish())
}
