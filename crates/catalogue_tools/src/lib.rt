// The C entry points of the tools: packing, salvage, the judge, the short scripts, wear figures. C calls each by its own name: bodies
// that differ in the inner call alone stay apart.
// C hands over each number, slice and lent word by itself: those that calls take together stay parameters.
#![tactic(auto)]

ghost use Rattle.std.specs.Prelude.{◌≡◌, length};
ghost use Rattle.model.specs.Results.{answer_number};
ghost use Rattle.model.specs.Writes.{insertion, deletion};
ghost use Rattle.model.specs.Answers.{Rebuilt, Ruled, Wore};
ghost use Rattle.model.specs.Salvage.{salvage, salvage_out, salvage_report};
ghost use Rattle.model.specs.Judge.{judge, judge_out};
ghost use Rattle.model.specs.Scripts.{script_answer, script_out, script_number, rank_or};
ghost use Rattle.model.specs.Wear.{worn, lines_after, pairs_after};
ghost use Rattle.model.specs.Pack.{packing, pack_out};

use model::Verdict;

// 0, or 2, 17, 10 or 25.
#[unsafe(no_mangle)]
pub extern "C" fn catalogue_pack(
    table: &mut [u64],
    collections: u64,
    pairs: &[u64],
    loans: &[u64],
) -> u64
    ensures value { result ≡ answer_number (packing collections pairs.now loans.now table.old) }
    ensures table_after { table.new ≡ pack_out collections pairs.now loans.now table.old }
{
    answers::number_of(packing::pack_table(table, collections, pairs, loans))
}

// 0 and the number of dropped slots, or 2, 15, 16 or 10.
#[unsafe(no_mangle)]
pub extern "C" fn catalogue_salvage(
    table: &[u64],
    out: &mut [u64],
    report: &mut [u64],
    dropped: &mut u64,
) -> u64
    ensures rebuilt { Rebuilt (salvage table.now (length out.old) (length report.old)) result
        dropped.old dropped.new }
    ensures out_after { out.new ≡ salvage_out table.now out.old (length report.old) }
    ensures report_after { report.new ≡ salvage_report table.now (length out.old) report.old }
{
    answers::put(salvage::salvage(table, out, report), dropped)
}

// A judgement's number; if it is no, the count that fails goes into the lent word.
fn put_count(verdict: Verdict, count: &mut u64) -> u64
    ensures { Ruled verdict result count.old count.new }
{
    match verdict {
        Ok(None) => 0,
        Ok(Some(c)) => {
            *count = c;
            254
        }
        Err(refusal) => u64::from(refusal),
    }
}

// 0 for yes, 254 and the first count of orders that fails for no, or 2, 17, 4, 20, 13, 15 or 21; likewise below.
#[unsafe(no_mangle)]
pub extern "C" fn catalogue_judge_insert(
    table: &[u64],
    orders: &[u64],
    out: &mut [u64],
    collection: u64,
    key: u64,
    recording: u64,
    access: u64,
    count: &mut u64,
) -> u64
    ensures ruled { Ruled (judge (insertion collection key recording access) table.now orders.now (length out.old)) result
        count.old count.new }
    ensures out_after { out.new ≡ judge_out (insertion collection key recording access) table.now orders.now out.old }
{
    let verdict = judge::judge_insert(table, orders, out, collection, key, recording, access);
    put_count(verdict, count)
}

#[unsafe(no_mangle)]
pub extern "C" fn catalogue_judge_delete(
    table: &[u64],
    orders: &[u64],
    out: &mut [u64],
    collection: u64,
    key: u64,
    count: &mut u64,
) -> u64
    ensures ruled { Ruled (judge (deletion collection key) table.now orders.now (length out.old)) result
        count.old count.new }
    ensures out_after { out.new ≡ judge_out (deletion collection key) table.now orders.now out.old }
{
    let verdict = judge::judge_delete(table, orders, out, collection, key);
    put_count(verdict, count)
}

// 0 and the script with this number, as a length and four actions, or 22.
#[unsafe(no_mangle)]
pub extern "C" fn catalogue_script(number: u64, script: &mut [u64; 5]) -> u64
    ensures value { result ≡ answer_number (script_answer number) }
    ensures script_after { script.new ≡ script_out number script.old }
{
    answers::number_of(short_scripts::script_of(number, script))
}

// 0 and the number of a script, or 23.
#[unsafe(no_mangle)]
pub extern "C" fn catalogue_script_number(script: &[u64; 5], number: &mut u64) -> u64
    ensures value { result ≡ answer_number (script_number script.now) }
    ensures number_after { number.new ≡ rank_or (script_number script.now) number.old }
{
    answers::put(short_scripts::number_of(*script), number)
}

// 0 and the figures, or 2, 13 or 24.
#[unsafe(no_mangle)]
pub extern "C" fn catalogue_wear(
    table: &[u64],
    orders: &[u64],
    lines: &mut [u64],
    extents: &mut [u64],
    total: &mut u64,
    largest: &mut u64,
    first_line: &mut u64,
    pairs: &mut u64,
) -> u64
    ensures wore { Wore (worn orders.now (length lines.old) (length extents.old) table.now) result
        total.old total.new largest.old largest.new
        first_line.old first_line.new pairs.old pairs.new }
    ensures lines_after { lines.new ≡ lines_after orders.now lines.old extents.old table.now }
    ensures extents_after { extents.new ≡ pairs_after orders.now lines.old extents.old table.now }
{
    let worn = wear::wear(table, orders, lines, extents);
    if let Ok(figures) = worn {
        *total = figures.total;
        *largest = figures.largest;
        *first_line = figures.first_line;
        *pairs = figures.pairs;
    }
    answers::number_of(worn)
}
