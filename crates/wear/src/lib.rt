// Wear figures: how often an order list stores to each line of a table, and which words it stores to.
#![tactic(auto)]

ghost use Rattle.std.specs.Prelude.{◌≡◌, ◌||◌, [], ◌∷◌, ℕ, ◌+◌, ◌-◌, ◌*◌, ◌%◌, ◌<◌, ◌≤◌, length};
ghost use Rattle.std.specs.Bool.{beq};
ghost use Rattle.model.specs.Table.{MARK, at};
ghost use Rattle.model.specs.SoundTest.{elem};
ghost use Rattle.model.specs.Orders.{store_count, decode};
ghost use Rattle.model.specs.ListedOrders.{meant};
ghost use Rattle.model.specs.Wear.{stored_to, stores_to, wear_of, largest, first_at, extent_words, worn, lines_after, pairs_after};
ghost use Rattle.list_laws.specs.Each.{Each};
ghost use Rattle.wear_laws.specs.Wearing.{extents_in, Sought};
ghost use Rattle.bits.specs.Bits.{has};
ghost use Rattle.wear.specs.Counting.{bit, or_here};

use model::{Figures, ListedOrder, Refusal, Worn};

// Words for a mark each of the largest table's words: 8 + 32 times 65,535 of them, 64 to a word.
const MARKS: usize = 32768;

// The most stores to a line, and the first line that has so many.
#[derive(Clone, Copy)]
struct Most {
    largest: u64,
    first: usize,
}

// One order's word marked, if it is a store.
fn mark_one(marks: &mut [u64; MARKS], order: ListedOrder)
    requires { Each (λ (w : ℕ). w < 64 * length marks.old) (stored_to (meant order ∷ [])) }
    ensures { (w : ℕ) → has marks.new w ≡ elem w (stored_to (meant order ∷ [])) || has marks.old w }
{
    if let ListedOrder::Store { word, .. } = order {
        bits::put(marks, word as usize);
    }
}

// Marks the words that the list stores to. A walk of its own, as carry's and the one of the lines: one for all would take a closure that writes to
// what it captures, and of that a proof knows nothing.
fn mark(marks: &mut [u64; MARKS], list: &[u64])
    requires { Each (λ (w : ℕ). w < 64 * length marks.old) (stored_to (decode list.now)) }
    ensures { (w : ℕ) → has marks.new w ≡ elem w (stored_to (decode list.now)) || has marks.old w }
{
    for pair in list.chunks_exact(2) {
        mark_one(marks, ListedOrder::from((pair[0], pair[1])));
    }
}

// A word whose bit is 1 if the given word's is as wanted.
fn wanted_bits<const WANTED: bool>(word: u64) -> u64
    ensures { (i : ℕ) → i < 64 → bit result i ≡ beq (bit word i) WANTED }
{
    if WANTED {
        return word;
    }
    !word
}

// How many numbers from w on, in w's word of marks, are not as wanted.
fn unwanted<const WANTED: bool>(marks: &[u64; MARKS], w: usize) -> usize
    requires { w < 64 * length marks.now }
    ensures { Sought (has marks.now) WANTED w (w + (64 - w % 64)) (w + result) }
{
    let bits = wanted_bits::<WANTED>(marks[w / 64] >> (w % 64));
    let n = bits.trailing_zeros() as usize;
    n.min(64 - w % 64)
}

// The first number from a number on that is marked, or that is not, as wanted. A word of marks a turn. If there is none below len it is len,
// no Option: an extent that goes on to the end ends there, and both walks below end at len.
fn seek<const WANTED: bool>(marks: &[u64; MARKS], from: usize, len: usize) -> usize
    requires { (from ≤ len) × (len ≤ 64 * length marks.now) }
    ensures { Sought (has marks.now) WANTED from len result }
{
    let mut w = from;
    // No fixed step: the marks say how far a turn goes.
    while w < len {
        let n = unwanted::<WANTED>(marks, w);
        if len - w <= n {
            return len;
        }
        if n < 64 - w % 64 {
            return w + n;
        }
        w += n;
    }
    w
}

// How many extents the marked numbers below len come to.
fn count_pairs(marks: &[u64; MARKS], len: usize) -> usize
    requires { len ≤ 64 * length marks.now }
    ensures { result ≡ length (extents_in (has marks.now) 0 len) }
{
    let mut pairs = 0;
    let mut w = seek::<true>(marks, 0, len);
    // No fixed step: an extent a turn, of any length. An iterator of extents would be no plainer: a type of marks, place and length, its `next` and
    // its laws, in place of two calls here and two in the next function.
    while w < len {
        let end = seek::<false>(marks, w, len);
        pairs += 1;
        w = seek::<true>(marks, end, len);
    }
    pairs
}

// Writes them as pairs of offset and length; the slice has room for all and no more.
fn write_pairs(pairs: &mut [u64], marks: &[u64; MARKS], len: usize)
    requires len_bound { len ≤ 64 * length marks.now }
    requires pairs_len { length pairs.old ≡ 2 * length (extents_in (has marks.now) 0 len) }
    ensures { pairs.new ≡ extent_words (extents_in (has marks.now) 0 len) }
{
    let mut w = seek::<true>(marks, 0, len);
    // Tried: over mutable chunks the proof did not close.
    for k in 0..pairs.len() / 2 {
        let end = seek::<false>(marks, w, len);
        pairs[2 * k] = w as u64;
        pairs[2 * k + 1] = (end - w) as u64;
        w = seek::<true>(marks, end, len);
    }
}

// One order counted at its line, if it is a store: how many stores it is.
fn count_one(lines: &mut [u64], order: ListedOrder) -> u64
    requires each { Each (λ (w : ℕ). w < 8 * length lines.old) (stored_to (meant order ∷ [])) }
    requires by_index { (l : ℕ) → at lines.old l < MARK }
    ensures value { result ≡ store_count (meant order ∷ []) }
    ensures by_index_2 { (l : ℕ) → at lines.new l ≡ at lines.old l + stores_to (meant order ∷ []) l }
{
    let ListedOrder::Store { word, .. } = order else {
        return 0;
    };
    lines[(word / 8) as usize] += 1;
    1
}

// Counts the list's stores at their lines, and in all.
fn count_stores(lines: &mut [u64], list: &[u64]) -> u64
    requires { Each (λ (w : ℕ). w < 8 * length lines.old) (stored_to (decode list.now)) }
    ensures value { result ≡ store_count (decode list.now) }
    ensures lines_after { lines.new ≡ wear_of (8 * length lines.old) (decode list.now) }
{
    lines.fill(0);
    let mut total = 0;
    // No `sum`: its closure would write to the lines, and of what it captures and changes a proof knows nothing.
    for pair in list.chunks_exact(2) {
        total += count_one(lines, ListedOrder::from((pair[0], pair[1])));
    }
    total
}

// The most so far, with line i before the others.
fn or_here(m: Most, i: usize, stores: u64) -> Most
    ensures { result ≡ or_here m i stores }
{
    if stores < m.largest {
        return m;
    }
    Most {
        largest: stores,
        first: i,
    }
}

// The largest number, and the first line that has it.
fn worst(lines: &[u64]) -> Most
    ensures largest_value { result.largest ≡ largest lines.now }
    ensures first_value { result.first ≡ first_at (largest lines.now) lines.now }
{
    let mut m = Most {
        largest: 0,
        first: lines.len(),
    };
    // A loop: the library's max and position leave a byte and a pointer in one struct, which targets/width.py refuses for wasm32 (tried).
    for (i, &stores) in lines.iter().enumerate().rev() {
        m = or_here(m, i, stores);
    }
    m
}

// Reports the stores of the whole list to each line of the table into lines, and the words that have a store, as pairs of offset and
// length, into pairs. 2 and 13 as in carry-out, then 24; a refusal changes no word, and words past what is written stay.
pub fn wear(table: &[u64], list: &[u64], lines: &mut [u64], pairs: &mut [u64]) -> Worn
    ensures value { result ≡ worn list.now (length lines.old) (length pairs.old) table.now }
    ensures lines_after { lines.new ≡ lines_after list.now lines.old pairs.old table.now }
    ensures pairs_after { pairs.new ≡ pairs_after list.now lines.old pairs.old table.now }
{
    node::header(table)?;
    let len = table.len();
    if !carry::all_inside(len, list) {
        return Err(Refusal::BadOrders);
    }
    let k = len / 8;
    if lines.len() < k {
        return Err(Refusal::ShortFigures);
    }
    // A set of numbers as bits: memory is fixed, there is no heap.
    let mut marks = [0u64; MARKS];
    mark(&mut marks, list);
    let n = count_pairs(&marks, len);
    let end = 2 * n;
    if pairs.len() < end {
        return Err(Refusal::ShortFigures);
    }
    write_pairs(&mut pairs[..end], &marks, len);
    let total = count_stores(&mut lines[..k], list);
    let m = worst(&lines[..k]);
    Ok(Figures {
        total,
        largest: m.largest,
        first_line: m.first as u64,
        pairs: n as u64,
    })
}
