// A table filled from pairs in rising key order, by the packing that a salvage uses: the pairs are copied behind the nodes that are made
// already, and packed there.
#![tactic(auto)]

ghost use Rattle.std.specs.Prelude.{◌≡◌, ◌++◌, ℕ, min, ◌+◌, ◌*◌, ◌/◌, ◌≤◌, ltb, length, drop};
ghost use Rattle.model.specs.Slots.{slots_of};
ghost use Rattle.model.specs.Packing.{packed_count, packed_both, packed_table};
ghost use Rattle.model.specs.Pack.{maps_ok, packing, pack_out};
ghost use Rattle.pack_laws.specs.Needed.{nodes_needed};
ghost use Rattle.pack.specs.Rows.{packed_after};
ghost use Rattle.packing.specs.Parts.{given, header_words, second_root, packed_nodes};

use model::{Outcome, Refusal};

// ---- whether the packing fits

// How many nodes the pairs of a slice of this length need, at most 65,536: more than any table has.
fn needed_for(words: usize) -> usize
    ensures { result ≡ min 65536 (nodes_needed (words / 2)) }
{
    pack::needed((words / 2).min(16777216)).min(65536)
}

// The pairs of each collection, as C hands them in: loans are looked at only if collections is not 1. With an Option of the loans one field
// goes, but the call would make it by a test of collections, and outgrows and fill_both match it in place of their test of collections.
#[derive(Clone, Copy)]
struct Given<'a> {
    collections: u64,
    pairs: &'a [u64],
    loans: &'a [u64],
}

// Whether the pairs need more than so many nodes. A struct with the bound on top as a ghost field would be for this function and put_table
// alone: for fill and fill_both top is a ghost number.
fn outgrows(top: usize, maps: Given<'_>) -> bool
    requires { top ≤ 65535 }
    ensures { result ≡ ltb top (packed_both (given maps.entry)) }
{
    let one = needed_for(maps.pairs.len());
    if maps.collections == 1 {
        return top < one;
    }
    let two = needed_for(maps.loans.len());
    top < one + two
}

// Whether the pairs of each collection may be its map.
fn maps_ok(maps: Given<'_>) -> bool
    ensures { result ≡ maps_ok (given maps.entry) }
{
    pairs::ok(maps.pairs) && (maps.collections == 1 || pairs::ok(maps.loans))
}

// ---- the table

// The pairs of a slice packed behind the nodes before, of so many in all. The answer is the root's number.
fn fill(words: &mut [u64], before: usize, pairs: &[u64]) -> usize
    ghost top: { ℕ }
    requires { (length words.old ≡ 32 * top) × (top ≤ 65535) × (before + nodes_needed (length pairs.now / 2) ≤ top) }
    ensures words_after { words.new ≡ packed_after before top words.old (slots_of pairs.now) }
    ensures value { result ≡ before + packed_count (slots_of pairs.now) }
{
    let count = pairs.len() / 2;
    let w = 32 * before;
    let end = 2 * count;
    node::copy(&pairs[..end], &mut words[w..w + end]);
    pack::pack(words, before, count)
}

// A value for each collection.
#[derive(Clone, Copy)]
pub struct Both<T> {
    pub one: T,
    pub two: T,
}

// The nodes of the table, collection 1 first; the answer is the roots' numbers. 0 for no second one, and no None: it goes into header word 3.
fn fill_both(words: &mut [u64], maps: Given<'_>) -> Both<usize>
    ghost top: { ℕ }
    requires { (length words.old ≡ 32 * top) × (top ≤ 65535) × (packed_both (given maps) ≤ top) }
    ensures words_after { words.new ≡ packed_nodes top (given maps.entry) }
    ensures one_value { (result.one ≡ packed_count (given maps.entry).one)
        × (result.two ≡ second_root (given maps.entry)) }
{
    let one = fill(words, 0, maps.pairs);
    if maps.collections == 1 {
        return Both { one, two: 0 };
    }
    let two = fill(words, one, maps.loans);
    Both { one, two }
}

// The header of a table with these roots, of so many nodes.
pub fn put_header(table: &mut [u64], roots: Both<usize>, top: u64)
    requires { 8 ≤ length table.old }
    ensures { table.new ≡ header_words roots.one roots.two top ++ drop 8 table.old }
{
    table[..8].copy_from_slice(&[1, roots.one as u64, top, roots.two as u64, 0, 0, 0, 0]);
}

// The whole table, if the packing fits.
fn put_table(table: &mut [u64], top: u64, maps: Given<'_>)
    requires { (length table.old ≡ 8 + 32 * top) × (top ≤ 65535) × (packed_both (given maps) ≤ top) }
    ensures { table.new ≡ packed_table top (given maps.entry) }
{
    let roots = fill_both(&mut table[8..], maps);
    put_header(table, roots, top);
}

// ---- the call

// Fills a table of one or two collections from pairs; 2, 17, 10 and 25 in that order. A refusal changes no word. The stack takes 270 KB.
pub fn pack_table(table: &mut [u64], collections: u64, pairs: &[u64], loans: &[u64]) -> Outcome
    ensures value { result ≡ packing collections pairs.now loans.now table.old }
    ensures table_after { table.new ≡ pack_out collections pairs.now loans.now table.old }
{
    node::may_make(table, collections)?;
    let top = node::nodes_in(table.len());
    let maps = Given {
        collections,
        pairs,
        loans,
    };
    if outgrows(top as usize, maps) {
        return Err(Refusal::NoNodes);
    }
    if !maps_ok(maps) {
        return Err(Refusal::BadPairs);
    }
    put_table(table, top, maps);
    Ok(())
}
