// Pairs in a slice, in the order of their keys, around a gap: those below it in the first words, those above it in the last. It is moved to
// where the next pair goes, so that keys that come in runs cost no more than the way from run to run.
#![tactic(auto)]

ghost use Rattle.std.specs.Prelude.{◌≡◌, ◌∷◌, ◌++◌, ◌+◌, ◌*◌, ◌≤◌, ◌<◌, length, take, drop};
ghost use Rattle.pack.specs.Rows.{pairs_in};
ghost use Rattle.gap.specs.Around.{around, Fits, Under, Over, ends_with};

use model::MARK;

// Pairs whose key is above this one go up across the gap; the answer is how many are below it then. No struct of pairs, kept and at: gather
// lends the words anew for each call, since its set has cells in the same slice, so that each call would make the struct and take it apart.
fn seek_down(pairs: &mut [u64], kept: usize, at: usize, key: u64) -> usize
    requires { Fits pairs.old at kept }
    ensures kept_after { (around pairs.new result kept ≡ around pairs.old at kept) × (result ≤ at) }
    ensures under { Under (around pairs.old at kept) key result }
{
    let gap = pairs.len() - 2 * kept;
    // By place, and no copy_within: `rposition` over the pairs would come first, with a law of which pair it finds, and the pairs that move would be
    // passed twice.
    for i in (0..at).rev() {
        let k = pairs[2 * i];
        if k <= key {
            return i + 1;
        }
        let p = pairs[2 * i + 1];
        pairs[gap + 2 * i] = k;
        pairs[gap + 2 * i + 1] = p;
    }
    0
}

// Pairs whose key is at most this one go down across the gap; the answer is how many are below it then.
fn seek_up(pairs: &mut [u64], kept: usize, at: usize, key: u64) -> usize
    requires { Fits pairs.old at kept }
    ensures kept_after { (around pairs.new result kept ≡ around pairs.old at kept) × (result ≤ kept) }
    ensures under { (Under (around pairs.old at kept) key at → Under (around pairs.old at kept) key result)
        × Over (around pairs.old at kept) key result }
{
    let gap = pairs.len() - 2 * kept;
    // By place, and no copy_within, as above.
    for i in at..kept {
        let k = pairs[gap + 2 * i];
        if key < k {
            return i;
        }
        let p = pairs[gap + 2 * i + 1];
        pairs[2 * i] = k;
        pairs[2 * i + 1] = p;
    }
    kept
}

// The gap goes to the place of a key, after the last pair whose key is at most this one; the answer is how many are below it then.
pub fn seek(pairs: &mut [u64], kept: usize, at: usize, key: u64) -> usize
    requires { Fits pairs.old at kept }
    ensures kept_after { (around pairs.new result kept ≡ around pairs.old at kept) × (result ≤ kept) }
    ensures under { Under (around pairs.old at kept) key result × Over (around pairs.old at kept) key result }
{
    let low = seek_down(pairs, kept, at, key);
    seek_up(pairs, kept, low, key)
}

// Whether the last pair below the gap has this key.
#[tactic(auto, unfolding(crate::specs::Around::ends_with))]
pub fn ends_with(pairs: &[u64], at: usize, key: u64) -> bool
    requires { (2 * at ≤ length pairs.now) × (at < 16777216) }
    ensures { result ≡ ends_with pairs.now at key }
{
    at != 0 && pairs[2 * at - 2] == key
}

// One pair more, below the gap.
pub fn put(pairs: &mut [u64], at: usize, key: u64, pointer: u64)
    requires { (2 * at + 2 ≤ length pairs.old) × (at < 16777216) }
    ensures { pairs.new ≡ take (2 * at) pairs.old ++ (key ∷ pointer ∷ drop (2 * at + 2) pairs.old) }
{
    pairs[2 * at] = key;
    pairs[2 * at + 1] = pointer;
}

// The gap goes to the end: all pairs in the first words.
pub fn close(pairs: &mut [u64], kept: usize, at: usize)
    requires { Fits pairs.old at kept }
    ensures { pairs_in pairs.new kept ≡ around pairs.old at kept }
{
    seek_up(pairs, kept, at, MARK);
}
