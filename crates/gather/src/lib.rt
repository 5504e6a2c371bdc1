// What a salvage gathers along nodes entered: pairs kept, in the order of their keys, and slots dropped, in the order met, as node,
// slot and reason in the report. The pairs stand around a gap in the first words of a slice of nodes, two words for each that there may be;
// the words after these are the cells of a set of their recordings.
#![tactic(auto)]

ghost use Rattle.std.specs.Prelude.{◌≡◌, not, [], ◌∷◌, ◌+◌, ◌-◌, ◌*◌, ◌≤◌, ◌<◌, eqb, length};
ghost use Rattle.std.proofs.lemmas.List.Edits.{sets};
ghost use Rattle.model.specs.Slots.{slot, recording_of};
ghost use Rattle.model.specs.Refusals.{has_recording};
ghost use Rattle.model.specs.Salvage.{reason_for, gather_slot, gather_slots, collected, gathered_along};
ghost use Rattle.gap.specs.Around.{Under, Over};
ghost use Rattle.gather.specs.Held.{placed, cause_number, number_of, pairs_of, held, gathered_in, met, Standing, Filing, Room, Kept, none, Along, Ready};

use numbers::Stop;

// How many pairs are kept, how many of them are below the gap, and how many slots were dropped.
#[derive(Clone, Copy)]
pub struct Tally {
    pub kept: usize,
    pub at: usize,
    pub dropped: usize,
}

// ---- the recordings kept

// Whether a kept pair has this recording number. Here and below words, bound, report and tally come one by one. A struct of them with methods
// would be made by gather, of its own lent parameters, for one call; each clause would be of its fields, old and new. As a ghost field Standing
// would fail in gather_slot: when the gap has gone to a key, the words have moved and the tally has not.
fn is_kept(words: &[u64], bound: usize, t: Tally, recording: u64) -> bool
    requires { Standing words.now bound t }
    ensures { result ≡ has_recording recording (pairs_of words.now bound t) }
{
    let low = 2 * t.at;
    let end = 2 * bound;
    let high = end - 2 * (t.kept - t.at);
    pairs::has_recording(&words[..low], 0, recording)
        || pairs::has_recording(&words[high..end], 0, recording)
}

// Whether a recording is new; then it is in the set from now on. If no cell is free, which only a table of one node can bring about, the
// pairs are looked through.
fn is_new(words: &mut [u64], bound: usize, t: Tally, recording: u64) -> bool
    requires { Standing words.old bound t }
    ensures value { result ≡ not (has_recording recording (pairs_of words.old bound t)) }
    ensures filing { Filing words.old bound t recording result words.new }
{
    let end = 2 * bound;
    let cells = words.len() - end;
    match numbers::enter(&mut words[end..], cells, recording) {
        Ok(()) => true,
        Err(Stop::Known) => false,
        Err(Stop::Full) => !is_kept(words, bound, t, recording),
    }
}

// ---- one slot

// A slot in use: its node, its place there, its two words.
#[derive(Clone, Copy)]
struct InUse {
    node: u64,
    place: u64,
    key: u64,
    pointer: u64,
}

// Why a slot is dropped, by the number that the report has for it.
#[derive(Clone, Copy)]
enum Cause {
    OutOfRange = 1,
    KeyHeld = 2,
    RecordingHeld = 3,
}

impl From<Cause> for u64 {
    ghost use Rattle.gather.specs.Held.{cause_number};

    ghost from_gives = { λ c n. n ≡ cause_number c };

    fn from(cause: Cause) -> u64 {
        cause as u64
    }
}

// A dropped slot is reported.
fn put_drop(report: &mut [u64], count: usize, node: u64, place: u64, why: Cause)
    requires { (3 * count + 3 ≤ length report.old) × (count < 16777216) }
    ensures { report.new ≡ sets report.old (3 * count) (node ∷ place ∷ cause_number why ∷ []) }
{
    report[3 * count..3 * count + 3].copy_from_slice(&[node, place, u64::from(why)]);
}

// The first reason against a pair whose place is at the gap. If there is none, its recording is in the set from now on.
fn reason(words: &mut [u64], bound: usize, t: Tally, key: u64, pointer: u64) -> Option<Cause>
    requires { Standing words.old bound t × Under (pairs_of words.old bound t) key t.at × Over (pairs_of words.old bound t) key t.at }
    ensures value { number_of result ≡ reason_for (pairs_of words.old bound t) (slot key pointer) }
    ensures filing { Filing words.old bound t (recording_of pointer) (eqb (number_of result) 0) words.new }
{
    if !pointer::ok(pointer) {
        return Some(Cause::OutOfRange);
    }
    let at = t.at;
    if gap::ends_with(words, at, key) {
        return Some(Cause::KeyHeld);
    }
    if !is_new(words, bound, t, pointer::recording(pointer)) {
        return Some(Cause::RecordingHeld);
    }
    None
}

// A slot that is collected: kept if no reason holds against it, else reported.
fn gather_slot(words: &mut [u64], bound: usize, report: &mut [u64], t: Tally, s: InUse) -> Tally
    requires { Standing words.old bound t × Room report.old t 1
        × (length (gather_slot s.node (held words.old bound report.old t) (placed s.place s.key s.pointer)).kept ≤ bound) }
    ensures result_after { held words.new bound report.new result
        ≡ gather_slot s.node (held words.old bound report.old t) (placed s.place s.key s.pointer) }
    ensures standing { Standing words.new bound result × Kept report.old t report.new result 1 }
{
    let end = 2 * bound;
    let at = gap::seek(&mut words[..end], t.kept, t.at, s.key);
    let sought = Tally { at, ..t };
    match reason(words, bound, sought, s.key, s.pointer) {
        None => {
            gap::put(&mut words[..end], at, s.key, s.pointer);
            Tally {
                kept: t.kept + 1,
                at: at + 1,
                ..t
            }
        }
        Some(why) => {
            put_drop(report, t.dropped, s.node, s.place, why);
            Tally {
                dropped: t.dropped + 1,
                ..sought
            }
        }
    }
}

// ---- leaves

// A slot, and before the pointer before it: a shown slot that is not past the sibling's fence is collected.
fn gather_shown(
    table: &[u64],
    words: &mut [u64],
    bound: usize,
    report: &mut [u64],
    t: Tally,
    sibling: u64,
    before: u64,
    s: InUse,
) -> Tally
    requires { Standing words.old bound t × Room report.old t 1
        × (length (gather_slots s.node (met table.now sibling before s.place s.key s.pointer) (held words.old bound report.old t)).kept
        ≤ bound) }
    ensures result_after { held words.new bound report.new result
        ≡ gather_slots s.node (met table.now sibling before s.place s.key s.pointer) (held words.old bound report.old t) }
    ensures standing { Standing words.new bound result × Kept report.old t report.new result 1 }
{
    if !tour::is_met(table, sibling, before, s.key, s.pointer) {
        return t;
    }
    gather_slot(words, bound, report, t, s)
}

// The slots of node n, if it is a leaf. keeping walks them likewise, to mark them: one function for both would take a closure, which here
// changes words, report and tally, and there marks; its promise on each step is longer than this walk.
fn gather_node(
    table: &[u64],
    words: &mut [u64],
    bound: usize,
    report: &mut [u64],
    t: Tally,
    n: u64,
) -> Tally
    requires { Standing words.old bound t × Room report.old t 12
        × (length (gather_slots n (collected table.now n) (held words.old bound report.old t)).kept ≤ bound) }
    ensures result_after { held words.new bound report.new result
        ≡ gather_slots n (collected table.now n) (held words.old bound report.old t) }
    ensures standing { Standing words.new bound result × Kept report.old t report.new result 12 }
{
    let x = node::read(table, n);
    if x.level != 0 {
        return t;
    }
    let mut p = t;
    let mut before = x.left;
    // By place, and not over slots::Shown: the report names the place, and hidden slots count for it. An iterator with the place and the
    // pointer before in its items would be a type, its next, a contract and laws, for this loop and keeping's: longer than the two.
    for i in 0..12 {
        let pointer = x.slots[2 * i + 1];
        if pointer == 0 {
            return p;
        }
        let s = InUse {
            node: n,
            place: i as u64,
            key: x.slots[2 * i],
            pointer,
        };
        p = gather_shown(table, words, bound, report, p, x.sibling, before, s);
        before = pointer;
    }
    p
}

// The slots of the leaves among these nodes, in order.
fn gather_nodes(
    table: &[u64],
    order: &[u16],
    words: &mut [u64],
    bound: usize,
    report: &mut [u64],
) -> Tally
    requires { Along order.now report.old × Standing words.old bound none
        × (length (gathered_along table.now order.now).kept ≤ bound) }
    ensures result_after { held words.new bound report.new result ≡ gathered_along table.now order.now }
    ensures standing { Standing words.new bound result
        × Kept report.old none report.new result (12 * length order.now) }
{
    // Written out: a `Default` of Tally would serve here alone, and `none` says the three zeros as they stand.
    let mut p = Tally {
        kept: 0,
        at: 0,
        dropped: 0,
    };
    for &n in order {
        p = gather_node(table, words, bound, report, p, n as u64);
    }
    p
}

// What is gathered along these nodes, if at most so many pairs are kept: the pairs in the first words, the dropped slots in the report.
pub fn gather(
    table: &[u64],
    order: &[u16],
    words: &mut [u64],
    bound: usize,
    report: &mut [u64],
) -> Tally
    requires { Ready table.now order.now words.old bound report.old }
    ensures result_after { gathered_in words.new report.new result ≡ gathered_along table.now order.now }
    ensures kept_le_bound { (result.kept ≤ bound) × Kept report.old none report.new result (12 * length order.now) }
{
    let end = 2 * bound;
    pack::clear(words, end);
    let t = gather_nodes(table, order, words, bound, report);
    gap::close(&mut words[..end], t.kept, t.at);
    t
}
