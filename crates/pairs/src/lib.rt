// Whether the pairs of a slice, a key and a whole pointer each, may be the map of a collection: the keys rise strictly, each recording number
// and class is in its range, and no recording number is there twice. Half a pair at the end of a slice is none.
#![tactic(auto)]

ghost use Rattle.std.specs.Prelude.{◌≡◌, map, drop};
ghost use Rattle.model.specs.Slots.{recording, slots_of};
ghost use Rattle.model.specs.Reached.{filter};
ghost use Rattle.model.specs.SoundTest.{all, distinct, pair_ok, rising};
ghost use Rattle.model.specs.Refusals.{has_recording};
ghost use Rattle.model.specs.Pack.{pairs_ok};
ghost use Rattle.numbers.specs.Cells.{outcome, entered_all, Tells};
ghost use Rattle.pairs.specs.Passes.{in_pass};

use numbers::{Entry, Stop};

// If the cells get full, passes narrower than this are not tried.
const NARROWEST: u64 = 4194304;

// Whether the keys rise strictly.
fn rise(pairs: &[u64]) -> bool
    ensures { result ≡ rising 0 (slots_of pairs.now) }
{
    // By place: `chunks_exact(2).is_sorted_by(..)` promises its answer for the items of a run; no lemma of std's takes that to a list, as for `all`.
    (1..pairs.len() / 2).all(|i| pairs[2 * i - 2] < pairs[2 * i])
}

// Whether each pointer has a recording number and a class that there are.
fn in_range(pairs: &[u64]) -> bool
    ensures { result ≡ all pair_ok (slots_of pairs.now) }
{
    pairs.chunks_exact(2).all(|pair| pointer::ok(pair[1]))
}

// ---- each recording number compared with all after it

// Whether one of the pairs from the first on has this recording number.
pub fn has_recording(pairs: &[u64], first: usize, recording: u64) -> bool
    ensures { result ≡ has_recording recording (drop first (slots_of pairs.now)) }
{
    // By place: compared_once alone asks from a later pair on, and a slice cut there would take a bound, and a law of what pairs are left in it.
    (first..pairs.len() / 2).any(|i| pointer::recording(pairs[2 * i + 1]) == recording)
}

// No recording number is there twice: each is compared with all after it. The last resort, for numbers chosen so that they crowd the same
// cells.
fn compared_once(pairs: &[u64]) -> bool
    ensures { result ≡ distinct (map recording (slots_of pairs.now)) }
{
    // By place: `chunks_exact(2).enumerate()` would give the pair beside its place, and the place alone says both.
    (0..pairs.len() / 2).all(|i| !has_recording(pairs, i + 1, pointer::recording(pairs[2 * i + 1])))
}

// ---- the recording numbers, entered in passes

// A pass takes the numbers that are scattered from low on, below high.
#[derive(Clone, Copy)]
struct Pass {
    low: u64,
    high: u64,
}

impl Pass {
    // Whether it takes a recording number.
    fn has(self, number: u64) -> bool
        ensures { result ≡ in_pass self.low self.high number }
    {
        (self.low..self.high).contains(&numbers::mixed(number))
    }
}

// Enters those of the pairs' recording numbers that are of the pass.
fn enter_all(cells: &mut [u64; numbers::CELLS], pairs: &[u64], pass: Pass) -> Entry
    ensures { outcome result cells.new ≡ entered_all (in_pass pass.low pass.high) (map recording (slots_of pairs.now)) cells.old }
{
    for pair in pairs.chunks_exact(2) {
        let number = pointer::recording(pair[1]);
        if !pass.has(number) {
            continue;
        }
        numbers::enter(cells, numbers::TRIES, number)?;
    }
    Ok(())
}

// Whether a number of the pass is there twice, unless the cells get full.
fn enter_pass(pairs: &[u64], pass: Pass) -> Entry
    ensures { Tells result (filter (in_pass pass.low pass.high) (map recording (slots_of pairs.now))) }
{
    // A set of numbers: memory is fixed, there is no heap.
    let mut cells = [0u64; numbers::CELLS];
    enter_all(&mut cells, pairs, pass)
}

// No recording number is there twice. The first pass takes all; if the cells get full, half its range is tried.
fn once(pairs: &[u64]) -> bool
    ensures { result ≡ distinct (map recording (slots_of pairs.now)) }
{
    let mut low = 0;
    let mut width = 4294967296;
    // No range counts this: a pass is as wide as the cells let it be.
    while low < numbers::SPREAD {
        let pass = Pass {
            low,
            high: low + width,
        };
        match enter_pass(pairs, pass) {
            Ok(()) => low += width,
            Err(Stop::Known) => return false,
            Err(Stop::Full) => {
                if width <= NARROWEST {
                    return compared_once(pairs);
                }
                width /= 2;
            }
        }
    }
    true
}

// Whether the pairs may be the map of a collection.
pub fn ok(pairs: &[u64]) -> bool
    ensures { result ≡ pairs_ok (slots_of pairs.now) }
{
    rise(pairs) && in_range(pairs) && once(pairs)
}
