// The quick repair: a table with a true summary is settled, so nothing is stored, and what is lent is only read.
#![tactic(auto)]

ghost use Rattle.std.specs.Prelude.{◌≡◌, length};
ghost use Rattle.model.specs.Writes.{repair};
ghost use Rattle.model.specs.Summary.{quick_written};

use model::{Counts, Refusal, Written};

// The call. Table, list, summary and dock come one by one, as C hands them in.
pub fn repair(table: &[u64], list: &[u64], summary: &[u64], dock: u64) -> Written
    ensures { result ≡ quick_written repair (length list.now) dock summary.now table.now }
{
    node::header(table)?;
    if summary.len() as u64 != quick::summary_words(table[2]) {
        return Err(Refusal::OtherSummary);
    }
    quick::writes(list.len(), dock)?;
    Ok(Counts::default())
}
