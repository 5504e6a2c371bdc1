// Search: finding the leaf, the slot in it, and the answer; the next code up. Nothing is written.
#![tactic(auto)]

ghost use Rattle.std.specs.Prelude.{◌≡◌, true, ◌&&◌, leb};
ghost use Rattle.model.specs.Table.{header_ok, has_node, node, nodes};
ghost use Rattle.model.specs.Slots.{view};
ghost use Rattle.model.specs.Search.{on_level, down, next_from, search};
ghost use Rattle.search.specs.Descent.{looked_at, seen_in, read_if, stand_on, locate_from, found, numbered, is_plain, absent_by, answer_held};

use model::{Answer, Node, Refusal};

// The child that a search goes down to from node m.
pub fn down(table: &[u64], m: u64, key: u64) -> u64
    ensures { result ≡ down (view table.now) m key }
{
    let x = node::read(table, m);
    slots::scan(x.slots, x.left, key).way
}

// ---- a node on the way

// What a search sees of the node that it stands on: its number, the way down, and the pointer of the key's slot, if it has one.
#[derive(Clone, Copy)]
pub struct Stood {
    pub node: u64,
    pub way: u64,
    pub held: Option<u64>,
}

// What is seen of node n, which is read, in one look at its slots. A call would copy the node, whose 28 words a search mostly does not need: so
// the functions that take or give one on each level are put in where they are called.
#[inline(always)]
fn look(n: u64, read: Node, key: u64) -> Stood
    ensures { result ≡ looked_at n read key }
{
    let seen = slots::scan(read.slots, read.left, key);
    Stood {
        node: n,
        way: seen.way,
        held: (seen.held != 0).then_some(seen.held),
    }
}

// The root, read, if the table has it and it is on a level that a root may be on.
pub fn read_root(table: &[u64], root: u64) -> Option<Node>
    ensures { result ≡ read_if (has_node table.now root && leb (node table.now root).level 15) (node table.now root) }
{
    if !node::has(table, root) {
        return None;
    }
    let x = node::read(table, root);
    (x.level <= 15).then_some(x)
}

// Node n, read, if the table has it and it is on the level. One look-up for this and the root's, filtered by `Option::filter`, would be a third
// function beside the two and a closure in each. That the header is right is a clause, here and below: document 01 lays down a lent `&[u64]` for
// the table.
#[inline(always)]
pub fn read_on(table: &[u64], n: u64, level: u64) -> Option<Node>
    requires { header_ok table.now ≡ true }
    ensures { result ≡ read_if (on_level (view table.now) level n) (node table.now n) }
{
    if !node::has(table, n) {
        return None;
    }
    let x = node::read(table, n);
    (x.level == level).then_some(x)
}

// Coming to node n, which is read: what is seen of n or, after a move, of its sibling, if the tests pass. Each is looked at once, and decides by
// that look alone. A struct of table, number and read node could carry what is asked, here, in `next_from` and in sentinels' `leaf_at`: it would
// be made for each node on the way, and be taken apart here.
#[inline(always)]
pub fn stand(table: &[u64], n: u64, read: Node, key: u64) -> Option<Stood>
    requires table_value { header_ok table.now ≡ true }
    requires n_value { on_level (view table.now) read.level n ≡ true }
    requires read_value { read ≡ node table.now n }
    ensures { result ≡ seen_in (view table.now) key (stand_on (view table.now) read.level n key) }
{
    // A search mostly stands on n: its slots are scanned first, so that it does not wait for the sibling's fence.
    let here = look(n, read, key);
    let sibling = read.sibling;
    if sibling == 0 {
        return Some(here);
    }
    let y = read_on(table, sibling, read.level)?;
    if key < y.fence {
        return Some(here);
    }
    Some(look(sibling, y, key))
}

// Coming to node n on a level.
#[inline(always)]
pub fn come(table: &[u64], n: u64, level: u64, key: u64) -> Option<Stood>
    requires { header_ok table.now ≡ true }
    ensures { result ≡ seen_in (view table.now) key (stand_on (view table.now) level n key) }
{
    let x = read_on(table, n, level)?;
    stand(table, n, x, key)
}

// What a search sees of its leaf, from the root down. The root may be on any level from 0 to 15, each node after it only on the one below.
fn descend(table: &[u64], root: u64, key: u64) -> Option<Stood>
    requires { header_ok table.now ≡ true }
    ensures { result ≡ seen_in (view table.now) key (locate_from (view table.now) root key) }
{
    let x = read_root(table, root)?;
    let mut s = stand(table, root, x, key)?;
    for level in (0..x.level).rev() {
        s = come(table, s.way, level, key)?;
    }
    Some(s)
}

// ---- the answer

// What is answered of the slot with this pointer.
pub fn found(held: u64) -> Answer
    ensures { result ≡ found held }
{
    Answer::Found {
        recording: pointer::recording(held),
        access: pointer::class(held),
    }
}

// The answer as document 01 names it, with the refusal's number in it. No `From`: it would stand in model, where both types are, for the two searches
// that answer by it.
pub fn numbered(answer: Result<Answer, Refusal>) -> Answer
    ensures { result ≡ numbered answer }
{
    match answer {
        Ok(answer) => answer,
        Err(refusal) => Answer::Refused(u8::from(refusal)),
    }
}

// The next key up, looked for from a leaf, which is read, and on along the siblings, in at most N leaves. The leaf's number is there for what is
// promised. No `Siblings`: it would look each node up once more, for the sibling that its record has, and goes on before the node's level is
// tested.
fn next_from(table: &[u64], leaf: u64, read: Node, key: u64) -> Result<Option<u64>, Refusal>
    requires table_value { header_ok table.now ≡ true }
    requires leaf_value { on_level (view table.now) 0 leaf ≡ true }
    requires read_value { read ≡ node table.now leaf }
    ensures { absent_by result ≡ next_from (view table.now) (nodes table.now) leaf key }
{
    let mut x = read;
    for entered in 0..table[2] {
        let slots = x.slots;
        let sibling = x.sibling;
        if sibling == 0 {
            return Ok(slots::above(slots, x.left, 0, 0, key));
        }
        let y = read_on(table, sibling, 0).ok_or(Refusal::SearchLost)?;
        let next = slots::above(slots, x.left, sibling, y.fence, key);
        if next.is_some() {
            return Ok(next);
        }
        x = y;
    }
    Err(Refusal::SearchLost)
}

// The answer from leaf m, with the pointer of the key's slot in it. The next key is looked for only if there is none, by looks of its own.
pub fn answer(table: &[u64], m: u64, held: Option<u64>, key: u64) -> Result<Answer, Refusal>
    requires table_value { header_ok table.now ≡ true }
    requires m_value { on_level (view table.now) 0 m ≡ true }
    ensures value { numbered result ≡ answer_held held (next_from (view table.now) (nodes table.now) m key) }
    ensures plain { is_plain result ≡ true }
{
    if let Some(held) = held {
        return Ok(found(held));
    }
    let x = node::read(table, m);
    let next = next_from(table, m, x, key)?;
    Ok(Answer::Absent(next))
}

// The answer of a search, or why it refuses.
fn find(table: &[u64], collection: u64, key: u64) -> Result<Answer, Refusal>
    ensures { numbered result ≡ search collection table.now key }
{
    let root = node::find_root(table, collection)?;
    let s = descend(table, root, key).ok_or(Refusal::SearchLost)?;
    answer(table, s.node, s.held, key)
}

// The recording and the class of a key in a collection, or that it is absent, with the next key up; 2, 3 and 17 as document 01 and
// requests 1 and 6 lay down.
pub fn search(table: &[u64], collection: u64, key: u64) -> Answer
    ensures { result ≡ search collection table.now key }
{
    numbered(find(table, collection, key))
}
