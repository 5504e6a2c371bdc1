// The C entry points of quick calls, those that take a summary. C calls each by its own name, with the parameters of its declaration: bodies that
// differ in the inner call alone stay apart.
#![tactic(auto)]

ghost use Rattle.std.specs.Prelude.{◌≡◌, ◌&&◌, cond, leb, length};
ghost use Rattle.model.specs.Results.{answer_number};
ghost use Rattle.model.specs.Writes.{insertion, deletion, class_change, repair};
ghost use Rattle.model.specs.Answers.{Showed, Summed, WroteQuick};
ghost use Rattle.model.specs.QuickBatch.{quick_batch};
ghost use Rattle.model.specs.Slots.{slots_of};
ghost use Rattle.model.specs.Summary.{summary_words, opening, opened_words, quick_listed, quick_list_out};

// The words of a summary of a table of so many nodes; 0 if no table has so many.
#[unsafe(no_mangle)]
pub extern "C" fn catalogue_summary_words(nodes: u64) -> u64
    ensures { result ≡ cond (leb 1 nodes && leb nodes 65535) (summary_words nodes) 0 }
{
    if (1..=65535).contains(&nodes) {
        quick::summary_words(nodes)
    } else {
        0
    }
}

// 0 and the summary worked out, or 2, 26, 4 or 20.
#[unsafe(no_mangle)]
pub extern "C" fn catalogue_summary(table: &[u64], summary: &mut [u64]) -> u64
    ensures value { result ≡ answer_number (opening (length summary.old) table.now) }
    ensures summary_after { summary.new ≡ opened_words summary.old table.now }
{
    answers::number_of(opening::open(table, summary))
}

// As the plain writing calls, with 26 after 17; then 4 by the nodes on the way.
#[unsafe(no_mangle)]
pub extern "C" fn catalogue_quick_insert(
    table: &mut [u64],
    summary: &mut [u64],
    collection: u64,
    orders: &mut [u64],
    dock: u64,
    key: u64,
    recording: u64,
    access: u64,
    stores: &mut u64,
    flushes: &mut u64,
    barriers: &mut u64,
) -> u64
    ensures { WroteQuick (insertion collection key recording access) result table.old table.new
        summary.old summary.new orders.old orders.new
        dock stores.old stores.new flushes.old flushes.new
        barriers.old barriers.new }
{
    let answer = quick_insert::insert(
        table, orders, summary, dock, collection, key, recording, access,
    );
    answers::put_counts(answer, stores, flushes, barriers)
}

// As the plain batch, with 26 after 17.
#[unsafe(no_mangle)]
pub extern "C" fn catalogue_quick_insert_many(
    table: &mut [u64],
    summary: &mut [u64],
    collection: u64,
    orders: &mut [u64],
    dock: u64,
    pairs: &[u64],
    taken: &mut u64,
    stop: &mut u64,
    stores: &mut u64,
    flushes: &mut u64,
    barriers: &mut u64,
) -> u64
    ensures sums { Summed (quick_batch collection dock (slots_of pairs.now) orders.old summary.old table.old).batched.answer result
        taken.old taken.new stop.old stop.new stores.old stores.new
        flushes.old flushes.new barriers.old barriers.new }
    ensures table_after { table.new ≡ (quick_batch collection dock (slots_of pairs.now) orders.old summary.old table.old).batched.table }
    ensures list_after { orders.new ≡ (quick_batch collection dock (slots_of pairs.now) orders.old summary.old table.old).batched.list }
    ensures summary_after { summary.new ≡ (quick_batch collection dock (slots_of pairs.now) orders.old summary.old table.old).summary }
{
    let answer = quick_insert_many::insert_many(table, orders, summary, dock, collection, pairs);
    answers::put_sums(answer, taken, stop, stores, flushes, barriers)
}

#[unsafe(no_mangle)]
pub extern "C" fn catalogue_quick_delete(
    table: &mut [u64],
    summary: &mut [u64],
    collection: u64,
    orders: &mut [u64],
    dock: u64,
    key: u64,
    stores: &mut u64,
    flushes: &mut u64,
    barriers: &mut u64,
) -> u64
    ensures { WroteQuick (deletion collection key) result table.old table.new
        summary.old summary.new orders.old orders.new
        dock stores.old stores.new flushes.old flushes.new
        barriers.old barriers.new }
{
    let answer = quick_delete::delete(table, orders, summary, dock, collection, key);
    answers::put_counts(answer, stores, flushes, barriers)
}

#[unsafe(no_mangle)]
pub extern "C" fn catalogue_quick_set_class(
    table: &mut [u64],
    summary: &[u64],
    collection: u64,
    orders: &mut [u64],
    dock: u64,
    key: u64,
    access: u64,
    stores: &mut u64,
    flushes: &mut u64,
    barriers: &mut u64,
) -> u64
    ensures { WroteQuick (class_change collection key access) result table.old table.new
        summary.now summary.now orders.old orders.new
        dock stores.old stores.new flushes.old flushes.new
        barriers.old barriers.new }
{
    let answer = quick_reclass::set_class(table, orders, summary, dock, collection, key, access);
    answers::put_counts(answer, stores, flushes, barriers)
}

#[unsafe(no_mangle)]
pub extern "C" fn catalogue_quick_repair(
    table: &[u64],
    summary: &[u64],
    orders: &[u64],
    dock: u64,
    stores: &mut u64,
    flushes: &mut u64,
    barriers: &mut u64,
) -> u64
    ensures { WroteQuick repair result table.now table.now
        summary.now summary.now orders.now orders.now
        dock stores.old stores.new flushes.old flushes.new
        barriers.old barriers.new }
{
    let answer = quick_repair::repair(table, orders, summary, dock);
    answers::put_counts(answer, stores, flushes, barriers)
}

// As the plain listing, with 26 after 17; then 4 by the nodes on the way to the lowest key.
#[unsafe(no_mangle)]
pub extern "C" fn catalogue_quick_list(
    table: &[u64],
    summary: &[u64],
    collection: u64,
    low: u64,
    high: u64,
    out: &mut [u64],
    pairs: &mut u64,
    more: &mut u64,
) -> u64
    ensures showed { Showed (quick_listed collection summary.now table.now low high out.old) result
        pairs.old pairs.new more.old more.new }
    ensures out_after { out.new ≡ quick_list_out collection summary.now table.now low high out.old }
{
    let listed = quick_list::list(table, summary, collection, low, high, out);
    answers::put_page(listed, pairs, more)
}
