// The C entry points that take sentinels. C calls each by its own name, with the parameters of its declaration: bodies that differ in the inner
// call alone stay apart.
#![tactic(auto)]

ghost use Rattle.std.specs.Prelude.{◌≡◌, length};
ghost use Rattle.model.specs.Results.{answer_number};
ghost use Rattle.model.specs.Writes.{insertion, deletion, class_change, repair};
ghost use Rattle.model.specs.Answers.{Looked, WroteWith};
ghost use Rattle.model.specs.Sentinels.{work_out, worked_out, search_with};

// 0 and the sentinels worked out, or 2, 19 or 4.
#[unsafe(no_mangle)]
pub extern "C" fn catalogue_sentinels(table: &[u64], sentinels: &mut [u64]) -> u64
    ensures value { result ≡ answer_number (work_out (length sentinels.old) table.now) }
    ensures sentinels_after { sentinels.new ≡ worked_out sentinels.old table.now }
{
    answers::number_of(sentinels::work_out(table, sentinels))
}

// As the plain search, with 19 after 17.
#[unsafe(no_mangle)]
pub extern "C" fn catalogue_search_with(
    table: &[u64],
    sentinels: &[u64],
    collection: u64,
    key: u64,
    recording: &mut u64,
    access: &mut u64,
    next: &mut u64,
    higher: &mut u64,
) -> u64
    ensures { Looked (search_with collection sentinels.now table.now key) result recording.old recording.new
        access.old access.new next.old next.new higher.old higher.new }
{
    let answer = sentinels::search_with(table, sentinels, collection, key);
    answers::put_answer(answer, recording, access, next, higher)
}

// As the plain writing calls, with 19 after 17, and the sentinels of the nodes stored to set.
#[unsafe(no_mangle)]
pub extern "C" fn catalogue_insert_with(
    table: &mut [u64],
    sentinels: &mut [u64],
    collection: u64,
    orders: &mut [u64],
    dock: u64,
    key: u64,
    recording: u64,
    access: u64,
    stores: &mut u64,
    flushes: &mut u64,
    barriers: &mut u64,
) -> u64
    ensures { WroteWith (insertion collection key recording access) result table.old table.new
        sentinels.old sentinels.new orders.old orders.new
        dock stores.old stores.new flushes.old flushes.new
        barriers.old barriers.new }
{
    let answer = sentinel_writes::insert_with(
        table, sentinels, orders, dock, collection, key, recording, access,
    );
    answers::put_counts(answer, stores, flushes, barriers)
}

#[unsafe(no_mangle)]
pub extern "C" fn catalogue_delete_with(
    table: &mut [u64],
    sentinels: &mut [u64],
    collection: u64,
    orders: &mut [u64],
    dock: u64,
    key: u64,
    stores: &mut u64,
    flushes: &mut u64,
    barriers: &mut u64,
) -> u64
    ensures { WroteWith (deletion collection key) result table.old table.new
        sentinels.old sentinels.new orders.old orders.new
        dock stores.old stores.new flushes.old flushes.new
        barriers.old barriers.new }
{
    let answer = sentinel_writes::delete_with(table, sentinels, orders, dock, collection, key);
    answers::put_counts(answer, stores, flushes, barriers)
}

#[unsafe(no_mangle)]
pub extern "C" fn catalogue_set_class_with(
    table: &mut [u64],
    sentinels: &mut [u64],
    collection: u64,
    orders: &mut [u64],
    dock: u64,
    key: u64,
    access: u64,
    stores: &mut u64,
    flushes: &mut u64,
    barriers: &mut u64,
) -> u64
    ensures { WroteWith (class_change collection key access) result table.old table.new
        sentinels.old sentinels.new orders.old orders.new
        dock stores.old stores.new flushes.old flushes.new
        barriers.old barriers.new }
{
    let answer = sentinel_writes::set_class_with(
        table, sentinels, orders, dock, collection, key, access,
    );
    answers::put_counts(answer, stores, flushes, barriers)
}

#[unsafe(no_mangle)]
pub extern "C" fn catalogue_repair_with(
    table: &mut [u64],
    sentinels: &mut [u64],
    orders: &mut [u64],
    dock: u64,
    stores: &mut u64,
    flushes: &mut u64,
    barriers: &mut u64,
) -> u64
    ensures { WroteWith repair result table.old table.new
        sentinels.old sentinels.new orders.old orders.new
        dock stores.old stores.new flushes.old flushes.new
        barriers.old barriers.new }
{
    let answer = sentinel_writes::repair_with(table, sentinels, orders, dock);
    answers::put_counts(answer, stores, flushes, barriers)
}
