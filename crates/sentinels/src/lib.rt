// Sentinels for the leaves, in a slice beside the table, 3 words a node: worked out, set anew where stores went, and taken by a search. They
// appear in no order list.
#![tactic(auto)]

ghost use Rattle.std.specs.Prelude.{◌≡◌, ℕ, Bool, true, false, cond, ◌||◌, ◌+◌, ◌*◌, ◌≤◌, ◌<◌, eqb, ltb, length};
ghost use Rattle.model.specs.Table.{header_ok, no_collection, has_node, node, nodes};
ghost use Rattle.model.specs.Slots.{view};
ghost use Rattle.model.specs.Search.{first_with, on_level, answer_in};
ghost use Rattle.model.specs.SoundTest.{elem, sound};
ghost use Rattle.model.specs.Results.{passed};
ghost use Rattle.model.specs.Refusals.{orders_answered};
ghost use Rattle.model.specs.Sentinels.{first_key, leaves_all, sentinels_of, sentinels, words_of, node_of, set_anew};
ghost use Rattle.model.specs.Sentinels.{slice_number, work_out, worked_out, line_for, on_line, search_with};
ghost use Rattle.std.specs.Bool.{then_some};
ghost use Rattle.std.proofs.Math.Option.{some};
ghost use Rattle.slots.specs.Held.{held_by};
ghost use Rattle.search.specs.Descent.{stand_on, locate_from, numbered};
ghost use Rattle.sentinels.specs.Lines.{left_in, slots_in, begun_in, line_of, Tests, first_taken, as_option};
ghost use Rattle.sentinels.specs.Anew.{put_words, named, Asks};

use model::{Answer, MARK, Node, Outcome, Refusal, Written};

// ---- refusals

// Refusal 19: a slice of so many words has not 3 words for each node. What is asked of the table is a clause, here and below: a struct of the lent
// slice, with that fact in a ghost field, would be taken apart again at each read, for `node`, `reach` and `search` take the slice itself.
fn fits(table: &[u64], words: usize) -> Outcome
    requires { header_ok table.now ≡ true }
    ensures { result ≡ passed (cond (eqb words (3 * nodes table.now)) 0 19) }
{
    if words as u64 == 3 * table[2] {
        return Ok(());
    }
    Err(Refusal::OtherSentinels)
}

// What a call that takes a slice of so many words tests first, for a collection: 2, 17 and 19.
pub fn refusal(table: &[u64], words: usize, collection: u64) -> Outcome
    ensures { result ≡ passed (slice_number (no_collection collection table.now) words table.now) }
{
    node::find_root(table, collection)?;
    fits(table, words)
}

// For a call that names none: 2 and 19.
pub fn refusal_any(table: &[u64], words: usize) -> Outcome
    ensures { result ≡ passed (slice_number false words table.now) }
{
    node::header(table)?;
    fits(table, words)
}

// ---- the words of a node of the table, and one slot line of them, by the slot that the line begins with

// The pointer before slot first, if the slots up to it are in use. A loop of its own: before the line no slot is tested, so the walk over the
// line compares no index. By place, and no chunks of two: their words would be read by place as well, here and in the next function.
fn begin(node: &[u64; 32], first: usize) -> Option<u64>
    requires { first ≤ 12 }
    ensures { result ≡ begun_in (left_in node.now) first (slots_in node.now) }
{
    let mut before = node[0];
    for i in 0..first {
        let p = node[2 * i + 9];
        if p == 0 {
            return None;
        }
        before = p;
    }
    Some(before)
}

// The key and the pointer of the first shown slot on the line whose key passes the test. Slots past the line are not read.
fn line_slot<F: Fn(u64) -> bool>(node: &[u64; 32], first: usize, takes: F) -> Option<(u64, u64)>
    requires first_bound { first ≤ 8 }
    requires callable { F.IsAlwaysCallable takes }
    ensures { (p : ℕ → Bool) → Tests (F.post takes) p → result ≡ first_taken p (line_of node.now first) }
{
    let mut before = begin(node, first)?;
    for i in first..first + 4 {
        let p = node[2 * i + 9];
        if p == 0 {
            return None;
        }
        let key = node[2 * i + 8];
        if p != before && takes(key) {
            return Some((key, p));
        }
        before = p;
    }
    None
}

// The key of the first shown slot on the line, else MARK.
fn line_key(node: &[u64; 32], first: usize) -> u64
    requires { first ≤ 8 }
    ensures { result ≡ first_key (line_of node.now first) }
{
    line_slot(node, first, |_| true).map_or(MARK, |(key, _)| key)
}

// The pointer of the first shown slot on the line with the key.
fn line_find(node: &[u64; 32], first: usize, key: u64) -> Option<u64>
    requires { first ≤ 8 }
    ensures { result ≡ held_by (first_with key (line_of node.now first)) }
{
    line_slot(node, first, |k| k == key).map(|(_, pointer)| pointer)
}

// ---- the words

// Whether node n is a leaf that some root reaches.
fn is_leaf(table: &[u64], n: u64) -> bool
    requires { sound table.now ≡ true }
    ensures { result ≡ elem n (leaves_all table.now) }
{
    node::word(table, n, 2) == 0 && reach::is_taken(table, n)
}

// The words of node n: for a leaf the first keys of its lines.
fn three_of(table: &[u64], n: u64) -> [u64; 3]
    requires { sound table.now ≡ true }
    ensures { result ≡ sentinels_of table.now n }
{
    if !is_leaf(table, n) {
        return [0; 3];
    }
    let node = node::words(table, n);
    [line_key(node, 0), line_key(node, 4), line_key(node, 8)]
}

// Sets the words of node n. That the slice has them is a clause, here and below: for how many nodes it has words is known only once it is lent.
fn renew(table: &[u64], words: &mut [u64], n: u64)
    requires table_value { sound table.now ≡ true }
    requires le_n { 1 ≤ n }
    requires n_in_bounds { 3 * n ≤ length words.old }
    ensures { words.new ≡ put_words words.old n (sentinels_of table.now n) }
{
    let three = three_of(table, n);
    let at = 3 * (n as usize - 1);
    words[at..at + 3].copy_from_slice(&three);
}

// Sets the words of every node.
fn fill(table: &[u64], words: &mut [u64])
    requires table_value { sound table.now ≡ true }
    requires words_len { length words.old ≡ 3 * nodes table.now }
    ensures { words.new ≡ sentinels table.now }
{
    for n in 1..=table[2] {
        renew(table, words, n);
    }
}

// The words of a sound table, worked out; a refusal changes none.
pub fn work_out(table: &[u64], words: &mut [u64]) -> Outcome
    ensures value { result ≡ work_out (length words.old) table.now }
    ensures words_after { words.new ≡ worked_out words.old table.now }
{
    refusal_any(table, words.len())?;
    if !sound::is_sound(table) {
        return Err(Refusal::NotSound);
    }
    fill(table, words);
    Ok(())
}

// ---- the words of the nodes that were stored to

// The node that a store to word w goes to, in a table of so many words; 0 for the header, and for what is no store. The sum below gives the header
// 0, which is no node: an Option would be made of it here, and taken apart by the next function.
fn stored_node(w: u64, len: usize) -> u64
    requires { len ≤ 2097128 }
    ensures { result ≡ cond (ltb w len) (node_of w) 0 }
{
    if w < len as u64 {
        return (w + 24) / 32;
    }
    0
}

// Sets the words of node n, unless it is 0 or the last one that was set; which one is the last then.
fn renew_once(table: &[u64], words: &mut [u64], n: u64, last: u64) -> u64
    requires table_value { sound table.now ≡ true }
    requires n_in_bounds { 3 * n ≤ length words.old }
    ensures value { result ≡ cond (eqb n 0) last n }
    ensures words_after { words.new
        ≡ cond (eqb n 0 || eqb n last) words.old (put_words words.old n (sentinels_of table.now n)) }
{
    if n == 0 || n == last {
        return last;
    }
    renew(table, words, n);
    n
}

// Sets the words of the nodes that the first count orders of a list store to. Stores to one node mostly come one after another.
// Table, words and list are the three slices that C lends, here and in the calls above. By place: of `list.chunks_exact(2).take(count)` each pair's
// first word would be read by place as well; `list[..2 * count].iter().step_by(2)` needs a measure, and std has no law of what it yields.
fn renew_stored(table: &[u64], words: &mut [u64], list: &[u64], count: usize)
    requires table_value { header_ok table.now ≡ true }
    requires table_value_2 { 0 < count → sound table.now ≡ true }
    requires words_len { length words.old ≡ 3 * nodes table.now }
    requires count_in_bounds { 2 * count ≤ length list.now }
    ensures { words.new
        ≡ set_anew (named (length table.now) list.now count) table.now words.old }
{
    let len = table.len();
    let mut last = 0;
    for i in 0..count {
        let n = stored_node(list[2 * i], len);
        last = renew_once(table, words, n, last);
    }
}

// Sets them after a writing call, by the list and the answer that it gave; a refused call has no orders.
pub fn keep(table: &[u64], words: &mut [u64], list: &[u64], answer: Written)
    requires { Asks table.now list.now words.old answer }
    ensures { words.new
        ≡ set_anew (named (length table.now) list.now (orders_answered answer)) table.now words.old }
{
    if let Ok(counts) = answer {
        let count = counts.stores + counts.flushes + counts.barriers;
        renew_stored(table, words, list, count as usize);
    }
}

// ---- a search that takes them

// The words of node n in a slice.
fn words_of(words: &[u64], n: u64) -> &[u64; 3]
    requires le_n { 1 ≤ n }
    requires n_in_bounds { 3 * n ≤ length words.now }
    ensures { result.now ≡ words_of words.now n }
{
    words[3 * (n as usize - 1)..].first_chunk().unwrap()
}

// The number of the last line whose word is at most the key.
fn line_for(three: &[u64; 3], key: u64) -> Option<usize>
    ensures { result ≡ as_option (line_for key three.now) }
{
    three.iter().rposition(|&word| word <= key)
}

// The pointer of the first shown slot with the key on the line of leaf m that its words name.
fn on_line(table: &[u64], three: &[u64; 3], m: u64, key: u64) -> Option<u64>
    requires { has_node table.now m ≡ true }
    ensures { result ≡ held_by (on_line table.now m key (line_for key three.now)) }
{
    let j = line_for(three, key)?;
    line_find(node::words(table, m), 4 * j, key)
}

// The fence of node n, if the table has it and it is on the level. Word by word. Tried: `search::read_on` here is a call that copies the node, and a
// search that takes the words needs 516 instructions for 486.
#[inline(always)]
fn fence_on(table: &[u64], n: u64, level: u64) -> Option<u64>
    requires { header_ok table.now ≡ true }
    ensures { result ≡ then_some (on_level (view table.now) level n) (node table.now n).fence }
{
    if !node::has(table, n) {
        return None;
    }
    (node::word(table, n, 2) == level).then_some(node::word(table, n, 3))
}

// The leaf that a search stands on, coming to node n on level 0, which is read: n or its sibling, if the tests pass. Put in where it is called,
// so that the node is not copied. No struct of table, number and node, as in `search::stand`.
#[inline(always)]
fn leaf_at(table: &[u64], n: u64, read: Node, key: u64) -> Option<u64>
    requires table_value { header_ok table.now ≡ true }
    requires n_value { on_level (view table.now) read.level n ≡ true }
    requires read_value { read ≡ node table.now n }
    ensures { result ≡ as_option (stand_on (view table.now) read.level n key) }
{
    let sibling = read.sibling;
    if sibling == 0 {
        return Some(n);
    }
    let fence = fence_on(table, sibling, read.level)?;
    if key < fence {
        return Some(n);
    }
    Some(sibling)
}

// The leaf that a search comes to from a root, as the plain one does, but without a look at its slots. Tried: one descent for both, with a closure
// for what is looked at, takes a fifth more instructions.
fn leaf_for(table: &[u64], root: u64, key: u64) -> Option<u64>
    requires { header_ok table.now ≡ true }
    ensures { result ≡ as_option (locate_from (view table.now) root key) }
{
    let x = search::read_root(table, root)?;
    if x.level == 0 {
        return leaf_at(table, root, x, key);
    }
    let mut s = search::stand(table, root, x, key)?;
    for level in (1..x.level).rev() {
        s = search::come(table, s.way, level, key)?;
    }
    let y = search::read_on(table, s.way, 0)?;
    leaf_at(table, s.way, y, key)
}

// The answer from the whole of leaf m, as the plain search has it.
fn whole_leaf(table: &[u64], m: u64, key: u64) -> Result<Answer, Refusal>
    requires table_value { header_ok table.now ≡ true }
    requires m_value { on_level (view table.now) 0 m ≡ true }
    ensures { numbered result ≡ answer_in (view table.now) key (some m) }
{
    let x = node::read(table, m);
    let held = slots::find(x.slots, x.left, key);
    search::answer(table, m, held, key)
}

// What a search that takes the words answers, or why it refuses.
fn find_with(table: &[u64], words: &[u64], collection: u64, key: u64) -> Result<Answer, Refusal>
    ensures { numbered result ≡ search_with collection words.now table.now key }
{
    let root = node::find_root(table, collection)?;
    fits(table, words.len())?;
    let leaf = leaf_for(table, root, key).ok_or(Refusal::SearchLost)?;
    if let Some(held) = on_line(table, words_of(words, leaf), leaf, key) {
        return Ok(search::found(held));
    }
    whole_leaf(table, leaf, key)
}

// A search in a collection that looks first at the line of the leaf that its words name, then at the whole leaf.
pub fn search_with(table: &[u64], words: &[u64], collection: u64, key: u64) -> Answer
    ensures { result ≡ search_with collection words.now table.now key }
{
    search::numbered(find_with(table, words, collection, key))
}
