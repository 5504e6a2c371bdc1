// Salvage into a fresh table: what can be read of a damaged table, packed into a second slice, and a report of what was dropped. Collection 1
// comes first, in the tour, in the new nodes and in the report.
#![tactic(auto)]

ghost use Rattle.std.specs.Prelude.{◌≡◌, true, ◌+◌, ◌-◌, ◌*◌, ◌≤◌, ltb, length, take, drop};
ghost use Rattle.model.specs.Table.{header_ok, nodes};
ghost use Rattle.model.specs.Packing.{packed_count, packed_table};
ghost use Rattle.model.specs.Salvage.{gathered_along, kept_maps, dropped_all, outgrows, salvage, salvage_out, salvage_report};
ghost use Rattle.pack.specs.Rows.{packed_after};
ghost use Rattle.packing.specs.Parts.{second_root, packed_nodes};
ghost use Rattle.salvage.specs.Parts.{Toured, needed_both, Most, Fits, Reported};

use model::{Refusal, Salvaged};
use packing::Both;

// How many nodes were entered: for collection 1, and in all.
#[derive(Clone, Copy)]
struct Counts {
    first: usize,
    all: usize,
}

// The nodes entered, in order, into the order slice: for collection 1, then for collection 2. Without it its root is 0, which is no node.
fn enter_nodes(table: &[u64], order: &mut [u16; 65536]) -> Counts
    requires { header_ok table.now ≡ true }
    ensures toured { Toured table.now (take result.first order.new) (take (result.all - result.first) (drop result.first order.new)) }
    ensures few { (result.first ≤ result.all) × (result.all ≤ 65535) }
{
    // A set of numbers as bits, and a stack in two arrays, three bytes an entry: memory is fixed, there is no heap.
    let mut marks = [0u64; 1024];
    let mut stack = [0u16; 65536];
    let mut ways = [0u8; 65536];
    let first = tour::tour(table, table[1], &mut marks, &mut stack, &mut ways, order, 0);
    let all = tour::tour(
        table, table[3], &mut marks, &mut stack, &mut ways, order, first,
    );
    Counts { first, all }
}

// A damaged table with a good header, and the nodes entered: for collection 1, and for collection 2.
#[derive(Clone, Copy)]
struct Entered<'a> {
    table: &'a [u64],
    one: &'a [u16],
    two: &'a [u16],
    ghost toured: { Toured table.now one.now two.now },
}

// ---- whether the packing fits

// How many nodes so many pairs of each collection need; without collection 2 none for it.
fn needed_both(table: &[u64], pairs: Both<usize>) -> usize
    requires { (8 ≤ length table.now) × (pairs.one ≤ 16777216) × (pairs.two ≤ 16777216) }
    ensures { result ≡ needed_both table.now pairs.one pairs.two }
{
    let first = pack::needed(pairs.one);
    if table[3] == 0 {
        return first;
    }
    first + pack::needed(pairs.two)
}

// At least as many as the pairs kept, and too many for the table only if these are: the slots in use, if their packing fits; else the
// pairs kept, which takes far longer to know.
fn most_kept(entered: Entered<'_>) -> Both<usize>
    ensures most { Most entered.entry.table.now result.one result.two }
    ensures two_value { ltb (nodes entered.entry.table.now) (needed_both entered.entry.table.now result.one result.two)
        ≡ outgrows entered.entry.table.now }
{
    let one = keeping::count_used(entered.table, entered.one);
    let two = keeping::count_used(entered.table, entered.two);
    let used = Both { one, two };
    if needed_both(entered.table, used) <= entered.table[2] as usize {
        return used;
    }
    let one = keeping::count_kept(entered.table, entered.one);
    let two = keeping::count_kept(entered.table, entered.two);
    Both { one, two }
}

// ---- the new table

// What the nodes filled come to: the root's number, or both, and how many slots were dropped.
#[derive(Clone, Copy)]
struct Filled<R> {
    root: R,
    dropped: usize,
}

// The pairs that these nodes hold, at most so many, packed behind the nodes before; and the report.
fn fill(
    table: &[u64],
    order: &[u16],
    words: &mut [u64],
    before: usize,
    bound: usize,
    report: &mut [u64],
) -> Filled<usize>
    requires { Fits table.now order.now words.old before bound report.old }
    ensures words_after { (words.new ≡ packed_after before (nodes table.now) words.old (gathered_along table.now order.now).kept)
        × (result.root ≡ before + packed_count (gathered_along table.now order.now).kept) }
    ensures reported { Reported report.old report.new (gathered_along table.now order.now).dropped result.dropped }
    ensures dropped_bound { result.dropped ≤ 12 * length order.now }
{
    let w = 32 * before;
    let t = gather::gather(table, order, &mut words[w..], bound, report);
    let root = pack::pack(words, before, t.kept);
    Filled {
        root,
        dropped: t.dropped,
    }
}

// The nodes of the new table, and the report, if at most so many pairs are kept of each collection. The second root is 0 if there is none,
// and no None: it goes into header word 3. Only this function and rebuild, its caller, require Most and what follows it: a struct of entered
// and bounds with them as ghost fields would be made for rebuild's one call, and the report's length is none of theirs.
fn fill_both(
    entered: Entered<'_>,
    words: &mut [u64],
    bounds: Both<usize>,
    report: &mut [u64],
) -> Filled<Both<usize>>
    requires { Most entered.table.now bounds.one bounds.two
        × (needed_both entered.table.now bounds.one bounds.two ≤ nodes entered.table.now) × (length words.old ≡ 32 * nodes entered.table.now)
        × (36 * nodes entered.table.now ≤ length report.old) }
    ensures words_after { words.new ≡ packed_nodes (nodes entered.entry.table.now) (kept_maps entered.entry.table.now) }
    ensures one_value { (result.root.one ≡ packed_count (kept_maps entered.entry.table.now).one)
        × (result.root.two ≡ second_root (kept_maps entered.entry.table.now)) }
    ensures reported { Reported report.old report.new (dropped_all entered.entry.table.now) result.dropped }
{
    let f = fill(entered.table, entered.one, words, 0, bounds.one, report);
    if entered.table[3] == 0 {
        let root = Both {
            one: f.root,
            two: 0,
        };
        return Filled {
            root,
            dropped: f.dropped,
        };
    }
    let w = 3 * f.dropped;
    let g = fill(
        entered.table,
        entered.two,
        words,
        f.root,
        bounds.two,
        &mut report[w..],
    );
    let root = Both {
        one: f.root,
        two: g.root,
    };
    Filled {
        root,
        dropped: f.dropped + g.dropped,
    }
}

// The second slice and the report, if the packing fits; the answer is how many slots were dropped.
fn rebuild(entered: Entered<'_>, out: &mut [u64], bounds: Both<usize>, report: &mut [u64]) -> usize
    requires { Most entered.table.now bounds.one bounds.two
        × (needed_both entered.table.now bounds.one bounds.two ≤ nodes entered.table.now) × (length out.old ≡ length entered.table.now)
        × (36 * nodes entered.table.now ≤ length report.old) }
    ensures out_after { out.new ≡ packed_table (nodes entered.entry.table.now) (kept_maps entered.entry.table.now) }
    ensures reported { Reported report.old report.new (dropped_all entered.entry.table.now) result }
{
    let f = fill_both(entered, &mut out[8..], bounds, report);
    packing::put_header(out, f.root, entered.table[2]);
    f.dropped
}

// ---- the call

// Reads the table and builds a new settled one of the same N in the second slice; 2, 15, 16 and 10 in that order. A refusal changes no
// word. The stack takes 450 KB.
pub fn salvage(table: &[u64], out: &mut [u64], report: &mut [u64]) -> Salvaged
    ensures value { result ≡ salvage table.now (length out.old) (length report.old) }
    ensures out_after { out.new ≡ salvage_out table.now out.old (length report.old) }
    ensures report_after { report.new ≡ salvage_report table.now (length out.old) report.old }
{
    node::header(table)?;
    if out.len() != table.len() {
        return Err(Refusal::OtherLength);
    }
    let top = table[2] as usize;
    if report.len() < 36 * top {
        return Err(Refusal::ShortReport);
    }
    // Room for every node that a table can have: memory is fixed, there is no heap.
    let mut order = [0u16; 65536];
    let counts = enter_nodes(table, &mut order);
    let entered = Entered {
        table,
        one: &order[..counts.first],
        two: &order[counts.first..counts.all],
    };
    let bounds = most_kept(entered);
    if top < needed_both(table, bounds) {
        return Err(Refusal::NoNodes);
    }
    let dropped = rebuild(entered, out, bounds, report);
    Ok(dropped as u64)
}
