// The writing calls that take the sentinels: each is the plain call, and then the words of the nodes that it stored to are set.
#![tactic(auto)]

ghost use Rattle.std.specs.Prelude.{ℕ, length};
ghost use Rattle.model.specs.Writes.{Call, insertion, deletion, class_change, repair};
ghost use Rattle.model.specs.Sentinels.{Leaves};
ghost use Rattle.sentinel_writes.specs.Changes.{Makes};

use model::{Outcome, Written};

// Makes a change, unless the test before it refused, and then sets the words of the nodes that it stored to.
// Slices and numbers come one by one, as C lends and hands them over.
fn with_words<F: FnOnce(&mut [u64], &mut [u64]) -> Written>(
    table: &mut [u64],
    words: &mut [u64],
    list: &mut [u64],
    tested: Outcome,
    change: F,
) -> Written
    requires callable { F.IsAlwaysCallable change }
    requires makes { (x : Call) × (dock : ℕ) × Makes F.FnOnce change tested x dock table.old (length words.old) }
    ensures { (x : Call) (dock : ℕ) → Makes F.FnOnce change tested x dock table.old (length words.old)
        → Leaves x dock table.old table.new list.old list.new words.old words.new result }
{
    tested?;
    let answer = change(table, list);
    sentinels::keep(table, words, list, answer);
    answer
}

pub fn insert_with(
    table: &mut [u64],
    words: &mut [u64],
    list: &mut [u64],
    dock: u64,
    collection: u64,
    key: u64,
    recording: u64,
    access: u64,
) -> Written
    ensures { Leaves (insertion collection key recording access) dock table.old table.new
        list.old list.new words.old words.new result }
{
    let tested = sentinels::refusal(table, words.len(), collection);
    with_words(table, words, list, tested, move |table, list| {
        insert::insert(table, list, dock, collection, key, recording, access)
    })
}

pub fn delete_with(
    table: &mut [u64],
    words: &mut [u64],
    list: &mut [u64],
    dock: u64,
    collection: u64,
    key: u64,
) -> Written
    ensures { Leaves (deletion collection key) dock table.old table.new
        list.old list.new words.old words.new result }
{
    let tested = sentinels::refusal(table, words.len(), collection);
    with_words(table, words, list, tested, move |table, list| {
        delete::delete(table, list, dock, collection, key)
    })
}

pub fn set_class_with(
    table: &mut [u64],
    words: &mut [u64],
    list: &mut [u64],
    dock: u64,
    collection: u64,
    key: u64,
    access: u64,
) -> Written
    ensures { Leaves (class_change collection key access) dock table.old table.new
        list.old list.new words.old words.new result }
{
    let tested = sentinels::refusal(table, words.len(), collection);
    with_words(table, words, list, tested, move |table, list| {
        reclass::set_class(table, list, dock, collection, key, access)
    })
}

// A repair names no collection.
pub fn repair_with(table: &mut [u64], words: &mut [u64], list: &mut [u64], dock: u64) -> Written
    ensures { Leaves repair dock table.old table.new
        list.old list.new words.old words.new result }
{
    let tested = sentinels::refusal_any(table, words.len());
    with_words(table, words, list, tested, move |table, list| {
        repair::repair(table, list, dock)
    })
}
