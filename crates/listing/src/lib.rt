// A listing: the map's pairs in a range of keys, written into a lent slice while whole pairs fit.
#![tactic(auto)]

ghost use Rattle.std.specs.Prelude.{◌≡◌};
ghost use Rattle.model.specs.Slots.{slot, view};
ghost use Rattle.model.specs.Listing.{list, list_out};
ghost use Rattle.slots.specs.Scan.{shown_from};
ghost use Rattle.listing.specs.Taking.{sheet, begun, taken, all_taken, wants, wanted, slot_taken, pairs_from};

use leaves::Siblings;
use model::{Listed, Node, Page, Refusal};

// What is asked of a leaf's slot: a key from low to high, and below the sibling's fence, the bound; with sibling 0 every key is. Two numbers, as
// `slots::keeps` takes them: with an Option of the bound its test would stand here once more, with a law that it is the same.
#[derive(Clone, Copy)]
struct Window {
    low: u64,
    high: u64,
    sibling: u64,
    bound: u64,
}

// Whether the window has the key.
#[tactic(auto, unfolding(crate::specs::Taking::wants))]
fn wants(w: Window, key: u64) -> bool
    ensures { result ≡ wants w key }
{
    (w.low..=w.high).contains(&key) && slots::keeps(w.sibling, w.bound, key)
}

// One pair more: written if it fits whole, else noted as left. A page so far: the pairs written, and whether one was left that did not fit.
// Slice and page stay two parameters, here and below: a struct of both, as `Text` of script_bytes is, would be no plainer. A page alone is answered, so
// that each function would have the struct and `list_from` the making and taking apart besides.
#[tactic(auto, unfolding(crate::specs::Taking::taken))]
fn take_pair(out: &mut [u64], p: Page, key: u64, pointer: u64) -> Page
    ensures { sheet out.new result ≡ taken (slot key pointer) (sheet out.old p) }
{
    let count = p.count as usize;
    if out.len() / 2 <= count {
        return Page { more: true, ..p };
    }
    out[2 * count] = key;
    out[2 * count + 1] = pointer;
    Page {
        count: p.count + 1,
        ..p
    }
}

// One slot in use more, where before is the pointer before it: a shown slot in the window is taken.
#[tactic(auto, unfolding(crate::specs::Taking::slot_taken))]
fn take_slot(out: &mut [u64], p: Page, w: Window, before: u64, key: u64, pointer: u64) -> Page
    ensures { sheet out.new result ≡ slot_taken w before key pointer (sheet out.old p) }
{
    if pointer != before && wants(w, key) {
        take_pair(out, p, key, pointer)
    } else {
        p
    }
}

// The slots of one leaf in turn.
fn list_leaf(out: &mut [u64], start: Page, x: Node, w: Window) -> Page
    ensures { sheet out.new result ≡ all_taken (wanted w (shown_from x.left x.slots 0)) (sheet out.old start) }
{
    let slots = x.slots;
    let mut p = start;
    let mut before = x.left;
    // By place: over `slots::Shown` a listing takes 5 % more instructions (tried; docs/BENCHMARKS.md, "Today's forms"), and may take no more than it
    // did. By `chunks_exact(2)` it is no plainer: the stop at the first 0 and the pointer before stay, and the laws of slots are by place.
    for i in 0..12 {
        let pointer = slots[2 * i + 1];
        if pointer == 0 {
            return p;
        }
        p = take_slot(out, p, w, before, slots[2 * i], pointer);
        before = pointer;
    }
    p
}

// The leaves from one on along the siblings, up to one whose fence is above the range, until a pair is left. Of the words nothing is asked: on
// any of them at most N leaves are looked at.
pub fn list_from(table: &[u64], first: u64, low: u64, high: u64, out: &mut [u64]) -> Page
    ensures { sheet out.new result ≡ all_taken (pairs_from (view table.now) low high first) (begun out.old) }
{
    let mut p = Page {
        count: 0,
        more: false,
    };
    for leaf in Siblings::new(table, first, leaves::word_at(table, 2)) {
        if p.more {
            return p;
        }
        let x = node::read(table, leaf);
        if high < x.fence {
            return p;
        }
        let w = Window {
            low,
            high,
            sibling: x.sibling,
            bound: node::word(table, x.sibling, 3),
        };
        p = list_leaf(out, p, x, w);
    }
    p
}

// Lists the pairs of a collection's map with keys from low to high, rising; 2, 17 and 4 as document 01 and request 6 lay down. A refusal
// changes no word.
pub fn list(table: &[u64], collection: u64, low: u64, high: u64, out: &mut [u64]) -> Listed
    ensures value { result ≡ list collection table.now low high out.old }
    ensures out_after { out.new ≡ list_out collection table.now low high out.old }
{
    let root = node::find_root(table, collection)?;
    if !sound::is_sound(table) {
        return Err(Refusal::NotSound);
    }
    let first = reach::standing(table, root, 0, low);
    Ok(list_from(table, first, low, high, out))
}
