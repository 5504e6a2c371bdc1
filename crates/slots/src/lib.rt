// The slots of one node, given by value: its slot words, or its record. No table is read, nothing is written.
#![tactic(auto)]

ghost use Rattle.std.specs.Prelude.{◌≡◌, ◌∷◌, pred, ◌≤◌, ◌<◌, length, take};
ghost use Rattle.model.specs.Slots.{slot};
ghost use Rattle.model.specs.Search.{route, first_with, first_above};
ghost use Rattle.model.specs.Shifts.{last_pointer, place_of, hidden_place};
ghost use Rattle.slots.specs.Scan.{used_from, in_use_of, pointer_before, shown_from, keeps, kept_of, is_way, way_after, held_after};
ghost use Rattle.slots.specs.Held.{pointer_in, held_by};
ghost use Rattle.slots.specs.Surveyed.{first_low, reaches, still_fair, surveyed_slot, surveyed, begun};
ghost use Rattle.slots.specs.Gathered.{slots_in};

mod shown;
mod ways;

use model::Node;
pub use shown::Shown;
pub use ways::Ways;

// ---- slots in use: places

// How many slots are in use.
pub fn count(slots: [u64; 24]) -> usize
    ensures value { result ≡ length (in_use_of slots) }
    ensures upper_bound { result ≤ 12 }
{
    (0..12).find(|&i| slots[2 * i + 1] == 0).unwrap_or(12)
}

// The place of the last slot in use; 0 if none is, as the definition has it: a shift, which asks, would put 0 in the place of an Option's None.
pub fn last(slots: [u64; 24]) -> usize
    ensures value { result ≡ pred (length (in_use_of slots)) }
    ensures upper_bound { result ≤ 12 }
{
    count(slots).saturating_sub(1)
}

// The place of key k: before the first slot in use whose key is not below it.
pub fn place(slots: [u64; 24], k: u64) -> usize
    ensures value { result ≡ place_of k (in_use_of slots) }
    ensures upper_bound { result ≤ 12 }
{
    (0..12)
        .find(|&i| slots[2 * i + 1] == 0 || k <= slots[2 * i])
        .unwrap_or(12)
}

// The place of the first hidden slot. Tried as a `find` by `pointer_before`, and proved: no plainer, for at each place the pointer before is asked
// for anew, by a test for place 0, where the loop has it at hand from the turn before; and a look took half as many instructions again.
// Slots and left come by themselves, here and below, and not in a `&Node`: that asks for more than what is promised rests on, and to count all
// shown slots a node without its sibling would be made.
#[tactic(auto, unfolding(crate::specs::Scan::in_use_of))]
pub fn hidden_place(slots: [u64; 24], left: u64) -> usize
    ensures value { result ≡ hidden_place left (in_use_of slots) }
    ensures upper_bound { result ≤ 12 }
{
    let mut before = left;
    for i in 0..12 {
        let p = slots[2 * i + 1];
        if p == 0 || p == before {
            return i;
        }
        before = p;
    }
    12
}

// The pointer before place p; where slots are in use up to there, that of the last of them.
#[tactic(auto, unfolding(crate::specs::Scan::pointer_before))]
pub fn pointer_before(slots: [u64; 24], left: u64, p: usize) -> u64
    requires { p ≤ 12 }
    ensures value { result ≡ pointer_before left slots p }
    ensures last { p ≤ length (in_use_of slots) → result ≡ last_pointer left (take p (in_use_of slots)) }
{
    if p == 0 {
        return left;
    }
    slots[2 * p - 1]
}

// ---- shown slots: the way down, and the slot of a key

// The way down after a slot in use: its pointer if it is shown and its key is at most the key looked for.
// The slot and the pointer before it are numbers, here and below: each turn of a look has them so, and would make a struct to be taken apart here.
fn way_after(way: u64, before: u64, k: u64, p: u64, key: u64) -> u64
    ensures { result ≡ way_after way before k p key }
{
    if p != before && k <= key { p } else { way }
}

// The pointer of the first shown slot with the key, after a slot in use; 0 if there is none.
fn held_after(held: u64, before: u64, k: u64, p: u64, key: u64) -> u64
    ensures { result ≡ held_after held before k p key }
{
    if p != before && k == key && held == 0 {
        p
    } else {
        held
    }
}

// What one look at a node's slots finds for a key: the way down, and the pointer of the first shown slot with the key, 0 for none.
// 0, and no Option: the loop keeps it in one word and tests it at each slot, and an Option has two. A search makes an Option of it once a node.
#[derive(Clone, Copy)]
pub struct Seen {
    pub way: u64,
    pub held: u64,
}

// For an inner node and for a leaf: the way down is by the last shown slot whose key is at most the key, else by left. Put in where it is called:
// then the node's record is not copied, the loop is unrolled, and no slot is loaded before it is looked at. Tried as a call: a descent of
// `reach::standing` takes nearly three times as many instructions.
// It keeps the pointer before by itself: each search runs through it, and `Shown` here costs searches instructions.
#[inline(always)]
pub fn scan(slots: [u64; 24], left: u64, key: u64) -> Seen
    ensures way_value { result.way ≡ route key left (shown_from left slots 0) }
    ensures held_value { result.held ≡ pointer_in (first_with key (shown_from left slots 0)) }
{
    let mut way = left;
    let mut held = 0;
    let mut before = left;
    for i in 0..12 {
        let p = slots[2 * i + 1];
        if p == 0 {
            return Seen { way, held };
        }
        let k = slots[2 * i];
        way = way_after(way, before, k, p, key);
        held = held_after(held, before, k, p, key);
        before = p;
    }
    Seen { way, held }
}

// Which of a leaf's slots holds the key: the pointer of the first shown one whose key it is.
pub fn find(slots: [u64; 24], left: u64, key: u64) -> Option<u64>
    ensures { result ≡ held_by (first_with key (shown_from left slots 0)) }
{
    Shown::new(&slots, left)
        .find(|&(k, _)| k == key)
        .map(|(_, pointer)| pointer)
}

// ---- kept slots: their number, the next key up, and the ways down

// Whether the key of a slot is below the sibling's fence, the bound; with sibling 0 every key is.
// Two numbers, as a node and the definitions have them: an Option of the fence would be made anew at each call.
#[tactic(auto, unfolding(crate::specs::Scan::keeps))]
pub fn keeps(sibling: u64, bound: u64, key: u64) -> bool
    ensures { result ≡ keeps sibling bound key }
{
    sibling == 0 || key < bound
}

// Whether a slot in use is shown and kept, where before is the pointer before it.
#[tactic(auto, unfolding(crate::specs::Scan::is_way))]
pub fn is_way(sibling: u64, bound: u64, before: u64, key: u64, pointer: u64) -> bool
    ensures { result ≡ is_way sibling bound before key pointer }
{
    pointer != before && keeps(sibling, bound, key)
}

// How many of a node's slots are shown and kept, the bound being the sibling's fence; with sibling 0 all that are shown.
// Tried over `Shown`, filtered and counted: a check took more instructions.
pub fn kept_count(slots: [u64; 24], left: u64, sibling: u64, bound: u64) -> u64
    ensures { result ≡ length (kept_of sibling bound (shown_from left slots 0)) }
{
    let mut count = 0;
    let mut before = left;
    for i in 0..12 {
        let p = slots[2 * i + 1];
        if p == 0 {
            return count;
        }
        if is_way(sibling, bound, before, slots[2 * i], p) {
            count += 1;
        }
        before = p;
    }
    count
}

// How many of a node's slots are shown.
pub fn shown_count(slots: [u64; 24], left: u64) -> u64
    ensures { result ≡ length (shown_from left slots 0) }
{
    kept_count(slots, left, 0, 0)
}

// The first key above the key among a leaf's kept slots, the bound being the sibling's fence.
// Tried as a chain over `Shown`: a search that misses took a tenth more instructions.
pub fn above(slots: [u64; 24], left: u64, sibling: u64, bound: u64, key: u64) -> Option<u64>
    ensures { result ≡ first_above key (kept_of sibling bound (shown_from left slots 0)) }
{
    let mut before = left;
    for i in 0..12 {
        let p = slots[2 * i + 1];
        if p == 0 {
            return None;
        }
        let k = slots[2 * i];
        if is_way(sibling, bound, before, k, p) {
            if key < k {
                return Some(k);
            }
        }
        before = p;
    }
    None
}

// The ways down from a node whose sibling's fence is the bound. Tried over `Shown`: a check took 3 in a hundred more instructions.
pub fn gather(x: Node, bound: u64) -> Ways
    ensures { slots_in result ≡ slot x.fence x.left ∷ kept_of x.sibling bound (shown_from x.left x.slots 0) }
{
    let slots = x.slots;
    let mut keys = [0u64; 13];
    let mut pointers = [0u64; 13];
    keys[0] = x.fence;
    pointers[0] = x.left;
    let mut count = 1;
    let mut before = x.left;
    for i in 0..12 {
        let key = slots[2 * i];
        let pointer = slots[2 * i + 1];
        if pointer == 0 {
            return Ways {
                count,
                keys,
                pointers,
            };
        }
        if is_way(x.sibling, bound, before, key, pointer) {
            keys[count] = key;
            pointers[count] = pointer;
            count += 1;
        }
        before = pointer;
    }
    Ways {
        count,
        keys,
        pointers,
    }
}

// ---- the survey of a node's slots

// Which keys the next kept slot may have.
#[derive(Clone, Copy)]
pub enum Low {
    AtLeast(u64),
    Above(u64),
}

// What is known after some of a node's slots in use, each fact by itself: whether the kept ones rise and come first; whether some are not kept; which keys
// the next kept one may have; the pointer before it; how many are hidden.
#[derive(Clone, Copy)]
pub struct Survey {
    pub fair: bool,
    pub trailing: bool,
    pub low: Low,
    pub before: u64,
    pub hidden: u64,
}

// The keys that a node's first kept slot may have: in a leaf its fence too.
fn first_low(level: u64, fence: u64) -> Low
    ensures { result ≡ first_low level fence }
{
    if level == 0 {
        Low::AtLeast(fence)
    } else {
        Low::Above(fence)
    }
}

// Whether a slot with this key may come next.
fn reaches(low: Low, key: u64) -> bool
    ensures { result ≡ reaches low key }
{
    match low {
        Low::AtLeast(k) => k <= key,
        Low::Above(k) => k < key,
    }
}

// Whether the kept slots rise and come first, one more of this key counted.
#[tactic(auto, unfolding(crate::specs::Surveyed::still_fair))]
fn still_fair(s: Survey, key: u64) -> bool
    ensures { result ≡ still_fair s key }
{
    s.fair && !s.trailing && reaches(s.low, key)
}

// One slot in use more.
#[tactic(auto, unfolding(crate::specs::Surveyed::surveyed_slot))]
fn survey_slot(s: Survey, sibling: u64, bound: u64, key: u64, pointer: u64) -> Survey
    requires { s.hidden < 12 }
    ensures { result ≡ surveyed_slot sibling bound key pointer s }
{
    if pointer == s.before {
        return Survey {
            before: pointer,
            hidden: s.hidden + 1,
            ..s
        };
    }
    if !keeps(sibling, bound, key) {
        return Survey {
            trailing: true,
            before: pointer,
            ..s
        };
    }
    Survey {
        fair: still_fair(s, key),
        low: Low::Above(key),
        before: pointer,
        ..s
    }
}

// All slots in use of a node whose sibling's fence is the bound; in an inner node the keys must be above its fence.
// No `Shown`: the hidden ones count too.
pub fn survey_slots(x: Node, bound: u64) -> Survey
    ensures { result ≡ surveyed x.sibling bound (used_from x.slots 0) (begun x) }
{
    let slots = x.slots;
    let mut s = Survey {
        fair: true,
        trailing: false,
        low: first_low(x.level, x.fence),
        before: x.left,
        hidden: 0,
    };
    for i in 0..12 {
        let p = slots[2 * i + 1];
        if p == 0 {
            return s;
        }
        s = survey_slot(s, x.sibling, bound, slots[2 * i], p);
    }
    s
}
