// Carry-out: the first c orders of a list, applied to a table.
#![tactic(auto)]

ghost use Rattle.std.specs.Prelude.{◌≡◌, true, [], ◌∷◌, length};
ghost use Rattle.model.specs.Orders.{decode, inside, all_inside, carry, carry_out, carried_out};
ghost use Rattle.model.specs.ListedOrders.{meant};

use model::{ListedOrder, Outcome, Refusal};

// Whether an order lies in a table of so many words.
fn is_inside(len: usize, order: ListedOrder) -> bool
    ensures { result ≡ inside len (meant order) }
{
    match order {
        ListedOrder::Store { word, .. } => word < len as u64,
        ListedOrder::Flush { line } => line < (len / 8) as u64,
        ListedOrder::Barrier => true,
    }
}

// Whether the orders of a list do. Words of two in turn, as in the other walks of a list, here, in judge, wear and script_bytes: an iterator of
// orders would be no plainer, a type with its `next` and its laws in place of one call of `from` a walk.
pub fn all_inside(len: usize, list: &[u64]) -> bool
    ensures { result ≡ all_inside len (decode list.now) }
{
    list.chunks_exact(2).all(|pair| is_inside(len, ListedOrder::from((pair[0], pair[1]))))
}

// One order carried out: a store is made, a flush or a barrier changes no word.
pub fn apply_one(table: &mut [u64], order: ListedOrder)
    requires { inside (length table.old) (meant order) ≡ true }
    ensures { table.new ≡ carry (meant order ∷ []) table.old }
{
    match order {
        ListedOrder::Store { word, value } => table[word as usize] = value,
        ListedOrder::Flush { .. } | ListedOrder::Barrier => {}
    }
}

// The orders of a list carried out.
fn apply_all(table: &mut [u64], list: &[u64])
    requires { all_inside (length table.old) (decode list.now) ≡ true }
    ensures { table.new ≡ carry (decode list.now) table.old }
{
    for pair in list.chunks_exact(2) {
        apply_one(table, ListedOrder::from((pair[0], pair[1])));
    }
}

// Applies the first c orders of a list to a table; 2 and 13 as document 01 lays down. A refusal changes no word.
pub fn carry_out(table: &mut [u64], list: &[u64], c: u64) -> Outcome
    ensures value { result ≡ carry_out c list.now table.old }
    ensures table_after { table.new ≡ carried_out c list.now table.old }
{
    node::header(table)?;
    if ((list.len() / 2) as u64) < c {
        return Err(Refusal::BadOrders);
    }
    let first = &list[..2 * c as usize];
    if !all_inside(table.len(), first) {
        return Err(Refusal::BadOrders);
    }
    apply_all(table, first);
    Ok(())
}
