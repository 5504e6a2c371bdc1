// What quick calls share: the words of a summary, the tests up to the way, those of the order list, and what a leaf has for a key.
#![tactic(auto)]

ghost use Rattle.std.specs.Prelude.{◌≡◌, Ok, ◌≤◌, length};
ghost use Rattle.model.specs.Results.{passed, answer_number};
ghost use Rattle.model.specs.Table.{nodes};
ghost use Rattle.model.specs.Slots.{node_view};
ghost use Rattle.model.specs.Search.{first_with};
ghost use Rattle.model.specs.Refusals.{has_key};
ghost use Rattle.model.specs.Summary.{mark_words, summary_words, marks_in, quick_list_number};
ghost use Rattle.slots.specs.Held.{held_by};
ghost use Rattle.way.specs.Ways.{Along};
ghost use Rattle.quick.specs.Lists.{lent_number};

use model::{Outcome, Refusal};
use way::Way;

// How many words of a summary hold marks, for so many nodes.
pub fn mark_words(nodes: u64) -> u64
    ensures { result ≡ mark_words nodes }
{
    nodes / 64 + 1
}

// How many words a summary has.
pub fn summary_words(nodes: u64) -> u64
    requires { nodes ≤ 65535 }
    ensures { result ≡ summary_words nodes }
{
    mark_words(nodes) + 16 * nodes
}

// What every quick call with a key begins with: 2, 17, 26 and 4; then the way to the leaf for the key.
pub fn begin(table: &[u64], summary: &[u64], collection: u64, key: u64) -> Result<Way, Refusal>
    ensures number { answer_number result ≡ quick_list_number collection summary.now table.now key }
    ensures way { (w : Way) → result ≡ Ok w → Along collection (marks_in (nodes table.now) summary.now) table.now key w }
    ensures summary_len { (w : Way) → result ≡ Ok w → length summary.now ≡ summary_words (nodes table.now) }
{
    let root = node::find_root(table, collection)?;
    let nodes = table[2];
    if summary.len() as u64 != summary_words(nodes) {
        return Err(Refusal::OtherSummary);
    }
    let marks = &summary[..mark_words(nodes) as usize];
    way::find(table, marks, root, key).ok_or(Refusal::NotSound)
}

// 18 and 5, for an order list of so many words and a dock.
pub fn writes(list_len: usize, dock: u64) -> Outcome
    ensures { result ≡ passed (lent_number list_len dock) }
{
    if 1 < dock {
        return Err(Refusal::NoDock);
    }
    if list_len < write::words_for(dock) {
        return Err(Refusal::ShortList);
    }
    Ok(())
}

// The pointer of the first shown slot of a node with the key: of any node of any table.
pub fn held(table: &[u64], leaf: u64, key: u64) -> Option<u64>
    ensures { result ≡ held_by (first_with key (node_view table.now leaf).shown) }
{
    let x = node::read(table, leaf);
    slots::find(x.slots, x.left, key)
}

// Whether it has one.
pub fn has_key(table: &[u64], leaf: u64, key: u64) -> bool
    ensures { result ≡ has_key key (node_view table.now leaf).shown }
{
    held(table, leaf, key).is_some()
}
