// Judging a supplier's order list: yes, or no with the first count of orders that fails. Each image is built in a second slice: if at most
// one line ever holds unflushed stores, the images of a cut are what first parts of the list leave, and each is looked at once.
#![tactic(auto)]

ghost use Rattle.std.specs.Prelude.{◌≡◌, true, false, [], ◌∷◌, ◌/◌, length, take};
ghost use Rattle.std.proofs.Math.Option.{none};
ghost use Rattle.model.specs.Table.{no_collection};
ghost use Rattle.model.specs.Reached.{maps_of};
ghost use Rattle.model.specs.SoundTest.{sound, settled};
ghost use Rattle.model.specs.Orders.{flush, inside, all_inside, decode, carry};
ghost use Rattle.model.specs.ListedOrders.{meant};
ghost use Rattle.model.specs.Writes.{insertion, deletion};
ghost use Rattle.model.specs.Judge.{good_image, unflushed_after, judged_from, count_of, judge, judge_out};
ghost use Rattle.judge.specs.Tests.{tested};
ghost use Rattle.judge.specs.Wanted.{wanted, Suits, line_of, other_line, Holds, ended};

use insert::Insertion;
use model::{ListedOrder, Refusal, Verdict};

// The change that is wanted: a collection's key gets this pointer, or goes.
#[derive(Clone, Copy)]
struct Change {
    collection: u64,
    key: u64,
    pointer: Option<u64>,
}

// A table, and a change that it suits.
#[derive(Clone, Copy)]
struct Plan<'a> {
    table: &'a [u64],
    change: Change,
    ghost suits: { Suits change table.now },
}

// ---- an image

// Whether an image is sound with the table's maps or the new ones. It is tested before a root is used. 0 in word 3 is no second tree: document 01
// says so, and each table's is read once. An Option of it would be taken apart here for the same two tests.
fn image_ok(image: &[u64], plan: &Plan<'_>) -> bool
    ensures { result ≡ good_image (maps_of plan.now.table.now) (wanted plan.now.change plan.now.table.now) image.now }
{
    let table = plan.table;
    let Change {
        collection,
        key,
        pointer,
    } = plan.change;
    let own = collection == 1;
    let top = leaves::word_at(image, 1);
    let root = leaves::word_at(table, 1);
    let other = leaves::word_at(image, 3);
    let second = leaves::word_at(table, 3);
    sound::is_sound(image)
        && compare::tree_ok(image, top, table, root, own, key, pointer)
        && (other == 0) == (second == 0)
        && (other == 0 || compare::tree_ok(image, other, table, second, !own, key, pointer))
}

// Whether a table is settled.
fn is_settled(table: &[u64]) -> bool
    ensures { result ≡ settled table.now }
{
    sound::check(table).is_some_and(|found| sound::is_nothing(found.leftover))
}

// ---- the orders, one by one

// The line that holds unflushed stores after a flush.
fn line_after(line: Option<u64>, flushed: u64) -> Option<u64>
    ensures { line_of result ≡ unflushed_after (line_of line) (flush flushed) }
{
    line.filter(|&l| l != flushed)
}

// Whether a store to a line makes it the second that holds unflushed stores.
fn second_line(line: Option<u64>, stored: u64) -> bool
    ensures { result ≡ other_line line stored }
{
    line.is_some_and(|l| stored != l)
}

// One order more, on an image that was good: the line that holds unflushed stores then, if the count of orders holds. Only a store leaves a
// new image. An Option in an Option: that the count fails and that no line holds unflushed stores are two answers.
fn turn(
    image: &mut [u64],
    order: ListedOrder,
    line: Option<u64>,
    plan: &Plan<'_>,
) -> Option<Option<u64>>
    requires order_value { inside (length image.old) (meant order) ≡ true }
    requires image_value { good_image (maps_of plan.now.table.now) (wanted plan.now.change plan.now.table.now) image.old ≡ true }
    ensures image_after { image.new ≡ carry (meant order ∷ []) image.old }
    ensures holds { Holds (maps_of plan.now.table.now) (wanted plan.now.change plan.now.table.now) (line_of line) (meant order) image.new result }
{
    carry::apply_one(image, order);
    match order {
        ListedOrder::Flush { line: flushed } => Some(line_after(line, flushed)),
        ListedOrder::Barrier => Some(line),
        ListedOrder::Store { word, .. } => {
            let stored = word / 8;
            if second_line(line, stored) || !image_ok(image, plan) {
                return None;
            }
            Some(Some(stored))
        }
    }
}

// The answer after all orders.
fn finish(image: &[u64], line: Option<u64>, change: Change, count: u64) -> Verdict
    requires image_value { sound image.now ≡ true }
    requires image_value_2 { no_collection change.collection image.now ≡ false }
    ensures { result ≡ ended (line_of line) image.now change count }
{
    if line.is_some() || !is_settled(image) {
        return Ok(Some(count));
    }
    let root = node::root_of(image, change.collection);
    if compare::held(image, root, change.key) != change.pointer {
        return Ok(Some(count));
    }
    Ok(None)
}

// All orders of a list, on an image that is the table.
fn judge_orders(image: &mut [u64], list: &[u64], plan: &Plan<'_>) -> Verdict
    requires image_value { image.old ≡ plan.now.table.now }
    requires list_value { all_inside (length plan.now.table.now) (decode list.now) ≡ true }
    ensures value { result ≡ judged_from (maps_of plan.now.table.now) (wanted plan.now.change plan.now.table.now)
        (decode list.now) 0 none plan.now.table.now }
    ensures image_after { image.new ≡ carry (take (count_of result (length list.now / 2)) (decode list.now)) plan.now.table.now }
{
    let mut line = None;
    for (i, pair) in list.chunks_exact(2).enumerate() {
        let order = ListedOrder::from((pair[0], pair[1]));
        let Some(after) = turn(image, order, line, plan) else {
            return Ok(Some(i as u64 + 1));
        };
        line = after;
    }
    finish(image, line, plan.change, list.len() as u64 / 2)
}

// ---- the call

// Judges the list on a copy of the table.
fn judge_copy(list: &[u64], out: &mut [u64], plan: &Plan<'_>) -> Verdict
    requires out_len { length out.old ≡ length plan.now.table.now }
    requires list_value { all_inside (length plan.now.table.now) (decode list.now) ≡ true }
    ensures value { result ≡ judged_from (maps_of plan.now.table.now) (wanted plan.now.change plan.now.table.now)
        (decode list.now) 0 none plan.now.table.now }
    ensures out_after { out.new ≡ carry (take (count_of result (length list.now / 2)) (decode list.now)) plan.now.table.now }
{
    node::copy(plan.table, out);
    judge_orders(out, list, plan)
}

// Where a judging starts: the collection's root, and how many nodes are reached.
#[derive(Clone, Copy)]
struct Start {
    root: u64,
    reached: u64,
}

// Refusals 2, 17, 4, 20, 13 and 15, for a second slice of so many words.
fn tests(table: &[u64], list: &[u64], words: usize, collection: u64) -> Result<Start, Refusal>
    ensures { result ≡ tested collection table.now list.now words }
{
    let root = node::find_root(table, collection)?;
    let found = sound::check(table).ok_or(Refusal::NotSound)?;
    if !sound::is_nothing(found.leftover) {
        return Err(Refusal::NotSettled);
    }
    if !carry::all_inside(table.len(), list) {
        return Err(Refusal::BadOrders);
    }
    if words != table.len() {
        return Err(Refusal::OtherLength);
    }
    Ok(Start {
        root,
        reached: found.reached,
    })
}

// Judges a list for the insertion of a key with a recording and a class; 2, 17, 4, 20, 13, 15 and 21 in that order. A refusal changes no word;
// else the second slice ends as the table with the list carried out, whole for yes, up to the named count for no.
// Collection, key, recording and class come one by one, as C hands them over.
pub fn judge_insert(
    table: &[u64],
    list: &[u64],
    out: &mut [u64],
    collection: u64,
    key: u64,
    recording: u64,
    access: u64,
) -> Verdict
    ensures value { result ≡ judge (insertion collection key recording access) table.now list.now (length out.old) }
    ensures out_after { out.new ≡ judge_out (insertion collection key recording access) table.now list.now out.old }
{
    let start = tests(table, list, out.len(), collection)?;
    let run = reach::full_run(table, start.root, key, None);
    let allowed = insert::may_insert(
        table,
        Insertion {
            collection,
            key,
            recording,
            access,
        },
        run,
        start.reached,
    );
    // No `map_err`: each refusal becomes the same one, so that its closure would drop what it is given.
    if allowed.is_err() {
        return Err(Refusal::ChangeRefused);
    }
    let change = Change {
        collection,
        key,
        pointer: Some(pointer::join(recording, access)),
    };
    judge_copy(list, out, &Plan { table, change })
}

// The same for the deletion of a key.
pub fn judge_delete(
    table: &[u64],
    list: &[u64],
    out: &mut [u64],
    collection: u64,
    key: u64,
) -> Verdict
    ensures value { result ≡ judge (deletion collection key) table.now list.now (length out.old) }
    ensures out_after { out.new ≡ judge_out (deletion collection key) table.now list.now out.old }
{
    let start = tests(table, list, out.len(), collection)?;
    if !write::has_key(table, start.root, key) {
        return Err(Refusal::ChangeRefused);
    }
    let change = Change {
        collection,
        key,
        pointer: None,
    };
    judge_copy(list, out, &Plan { table, change })
}
