// Marks as bits, 64 to a word: a set of numbers below 64 times the words.
#![tactic(auto)]

ghost use Rattle.std.specs.Prelude.{◌≡◌, ◌*◌, ◌<◌, length};
ghost use Rattle.bits.specs.Bits.{has, put, full};

// Words for a bit of each node that a table may have.
pub const MARKS: usize = 1024;

// Whether x is marked. The bound of x is required, not typed: the words are a slice, since sets differ in length and a summary's goes by its table.
pub fn has(words: &[u64], x: usize) -> bool
    requires { x < 64 * length words.now }
    ensures { result ≡ has words.now x }
{
    (words[x / 64] >> (x % 64)) % 2 == 1
}

// Marks x.
pub fn put(words: &mut [u64], x: usize)
    requires { x < 64 * length words.old }
    ensures { words.new ≡ put words.old x }
{
    let i = x / 64;
    words[i] |= 1 << (x % 64);
}

// Whether all 64 numbers of x's word are marked.
pub fn full(words: &[u64], x: usize) -> bool
    requires { x < 64 * length words.now }
    ensures { result ≡ full words.now x }
{
    words[x / 64] == u64::MAX
}
