// The C entry points that change a table. C calls each by its own name: bodies that differ in the inner call alone stay apart.
// C hands over each number, slice and lent word by itself: those that calls take together stay parameters.
#![tactic(auto)]

ghost use Rattle.model.specs.Writes.{insertion, deletion, class_change, repair};
ghost use Rattle.model.specs.Answers.{Wrote, WroteMany};

// 0 and the three counts, or the refusal number; likewise below.
#[unsafe(no_mangle)]
pub extern "C" fn catalogue_insert(
    table: &mut [u64],
    collection: u64,
    orders: &mut [u64],
    dock: u64,
    key: u64,
    recording: u64,
    access: u64,
    stores: &mut u64,
    flushes: &mut u64,
    barriers: &mut u64,
) -> u64
    ensures { Wrote (insertion collection key recording access) result table.old table.new orders.old orders.new
        dock stores.old stores.new flushes.old flushes.new
        barriers.old barriers.new }
{
    let answer = insert::insert(table, orders, dock, collection, key, recording, access);
    answers::put_counts(answer, stores, flushes, barriers)
}

// 0 with the counts and the number that stopped the batch, 0 if all pairs were taken; or the number that refused its first pair.
#[unsafe(no_mangle)]
pub extern "C" fn catalogue_insert_many(
    table: &mut [u64],
    collection: u64,
    orders: &mut [u64],
    dock: u64,
    pairs: &[u64],
    taken: &mut u64,
    stop: &mut u64,
    stores: &mut u64,
    flushes: &mut u64,
    barriers: &mut u64,
) -> u64
    ensures { WroteMany collection pairs.now result table.old table.new orders.old orders.new
        dock taken.old taken.new stop.old stop.new stores.old stores.new
        flushes.old flushes.new barriers.old barriers.new }
{
    let answer = insert_many::insert_many(table, orders, dock, collection, pairs);
    answers::put_sums(answer, taken, stop, stores, flushes, barriers)
}

#[unsafe(no_mangle)]
pub extern "C" fn catalogue_delete(
    table: &mut [u64],
    collection: u64,
    orders: &mut [u64],
    dock: u64,
    key: u64,
    stores: &mut u64,
    flushes: &mut u64,
    barriers: &mut u64,
) -> u64
    ensures { Wrote (deletion collection key) result table.old table.new orders.old orders.new
        dock stores.old stores.new flushes.old flushes.new
        barriers.old barriers.new }
{
    let answer = delete::delete(table, orders, dock, collection, key);
    answers::put_counts(answer, stores, flushes, barriers)
}

#[unsafe(no_mangle)]
pub extern "C" fn catalogue_set_class(
    table: &mut [u64],
    collection: u64,
    orders: &mut [u64],
    dock: u64,
    key: u64,
    access: u64,
    stores: &mut u64,
    flushes: &mut u64,
    barriers: &mut u64,
) -> u64
    ensures { Wrote (class_change collection key access) result table.old table.new orders.old orders.new
        dock stores.old stores.new flushes.old flushes.new
        barriers.old barriers.new }
{
    let answer = reclass::set_class(table, orders, dock, collection, key, access);
    answers::put_counts(answer, stores, flushes, barriers)
}

#[unsafe(no_mangle)]
pub extern "C" fn catalogue_repair(
    table: &mut [u64],
    orders: &mut [u64],
    dock: u64,
    stores: &mut u64,
    flushes: &mut u64,
    barriers: &mut u64,
) -> u64
    ensures { Wrote repair result table.old table.new orders.old orders.new
        dock stores.old stores.new flushes.old flushes.new
        barriers.old barriers.new }
{
    let answer = repair::repair(table, orders, dock);
    answers::put_counts(answer, stores, flushes, barriers)
}
