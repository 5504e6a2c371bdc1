// The repair call.
#![tactic(auto)]

ghost use Rattle.std.specs.Prelude.{◌≡◌, length};
ghost use Rattle.model.specs.Writes.{repair};
ghost use Rattle.model.specs.Refusals.{written, table_after, list_after};

use model::Written;
use orders::{Pen, Writer};
use sound::Sound;

// Finishes what a cut left unfinished. Table, list and dock come one by one, as C hands them in.
pub fn repair(table: &mut [u64], list: &mut [u64], dock: u64) -> Written
    ensures value { result ≡ written repair (length list.old) dock table.old }
    ensures table_after { table.new ≡ table_after repair (length list.old) dock table.old }
    ensures list_after { list.new ≡ list_after repair list.old dock table.old }
{
    let Sound { leftover, .. } = write::judge_any(table, list.len(), dock)?;
    let mut writer = Writer {
        table,
        list,
        pen: Pen::new(dock),
    };
    write::mend(&mut writer, leftover);
    Ok(writer.finish())
}
