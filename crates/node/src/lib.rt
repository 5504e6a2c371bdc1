// The header test, reading a node, and making a table.
#![tactic(auto)]

ghost use Rattle.std.specs.Prelude.{◌≡◌, true, false, ◌&&◌, ◌||◌, ◌+◌, ◌≤◌, eqb, leb, length, take, drop};
ghost use Rattle.model.specs.Results.{passed};
ghost use Rattle.model.specs.Table.{at, in_range, header_ok, header_number, root_word, no_collection, has_node, node, make_number, making, made, empty};
ghost use Rattle.node.specs.Word.{nodes_in, root_in, found_root, start_of, words_at, word_of};

use model::{MARK, Node, Outcome, Refusal};

// The N of a slice of this length; 0 for a wrong length. 0 as in the definition, and no Option: `make` and packing know that the length is right,
// and would only unwrap it.
pub fn nodes_in(len: usize) -> u64
    ensures { result ≡ nodes_in len }
{
    if len < 40 {
        return 0;
    }
    let n = (len - 8) / 32;
    if 65535 < n {
        return 0;
    }
    if 8 + 32 * n != len {
        return 0;
    }
    n as u64
}

// Header word 3 fits a table of n nodes: 0 for no second collection, else a node number, and then n is not 1.
fn second_fits(n: u64, second: u64) -> bool
    ensures { result ≡ (eqb second 0 || (leb second n && leb 2 n)) }
{
    second == 0 || second <= n && 2 <= n
}

// The collection's root, in one look at the header; 0 if it or the collection is refused. 0 is what word 3 holds for no second collection, and
// goes on as it stands: an Option would be made of it and taken apart again.
pub fn root(table: &[u64], collection: u64) -> u64
    ensures { result ≡ root_in collection table.now }
{
    let n = nodes_in(table.len());
    if n == 0 {
        return 0;
    }
    if table[0] != 1 {
        return 0;
    }
    if table[2] != n {
        return 0;
    }
    if table[4..8] != [0; 4] {
        return 0;
    }
    let first = table[1];
    if !in_range(n, first) {
        return 0;
    }
    let second = table[3];
    if !second_fits(n, second) {
        return 0;
    }
    // The definitions count collections by this number, which is C's; a call refuses a wrong one at its place.
    match collection {
        1 => first,
        2 => second,
        _ => 0,
    }
}

// The header test: 2 for a wrong length or header, or a root outside 1 to N.
pub fn header(table: &[u64]) -> Outcome
    ensures { result ≡ passed (header_number table.now) }
{
    if root(table, 1) == 0 {
        return Err(Refusal::NoTable);
    }
    Ok(())
}

// The collection's root; or 2 as the header test, then 17 for a collection that the table does not have. Only a refusal looks at the header twice.
pub fn find_root(table: &[u64], collection: u64) -> Result<u64, Refusal>
    ensures { result ≡ found_root collection table.now }
{
    let root = root(table, collection);
    if root != 0 {
        return Ok(root);
    }
    header(table)?;
    Err(Refusal::NoCollection)
}

// The root of a collection that the table has, if its header is right.
// Each function that rests on a right header asks for it, here and in the crates above: document 01 lays down a lent `&[u64]` for the table, and a
// struct of it with the fact as a ghost field would be no plainer: made for a call, and taken apart there.
pub fn root_of(table: &[u64], collection: u64) -> u64
    requires table_value { header_ok table.now ≡ true }
    requires table_value_2 { no_collection collection table.now ≡ false }
    ensures { result ≡ at table.now (root_word collection) }
{
    if collection == 1 {
        return table[1];
    }
    table[3]
}

// Whether i is one of so many nodes.
pub fn in_range(nodes: u64, i: u64) -> bool
    ensures { result ≡ in_range nodes i }
{
    (1..=nodes).contains(&i)
}

// Whether node i lies in the table. The length is divided, so that no number is too large to ask for.
pub fn has(table: &[u64], i: u64) -> bool
    ensures { result ≡ has_node table.now i }
{
    // One by one: as one condition, with the length cut off at 8, it makes each step of a descent longer.
    if i == 0 {
        return false;
    }
    let len = table.len();
    if len < 8 {
        return false;
    }
    i <= ((len - 8) / 32) as u64
}

// The index of node i's first word; 0 for a number that no node has. 0 as in the definition, and no Option: `words` and a shift know that the
// table has the node, and would only unwrap it.
pub fn start(table: &[u64], i: u64) -> usize
    ensures { result ≡ start_of table.now i }
{
    if !has(table, i) {
        return 0;
    }
    8 + 32 * (i as usize - 1)
}

// The 32 words of node i. That the table has the node is said of both together: so it is a clause.
pub fn words(table: &[u64], i: u64) -> &[u64; 32]
    requires { has_node table.now i ≡ true }
    ensures { result.now ≡ words_at table.now i }
{
    table[start(table, i)..].first_chunk().unwrap()
}

// The 24 slot words from index first on, a slot a turn: the compiler then sees each word apart, and a reader of a few slots does not copy all.
fn slots_from(table: &[u64], first: usize) -> [u64; 24]
    requires { first + 24 ≤ length table.now }
    ensures { result ≡ take 24 (drop first table.now) }
{
    let mut slots = [0u64; 24];
    for i in 0..12 {
        let key = 2 * i;
        let pointer = key + 1;
        slots[key] = table[first + key];
        slots[pointer] = table[first + pointer];
    }
    slots
}

// Node i by value; the blank record for a number that no node has. The blank one is written out: this is the only place that makes one.
pub fn read(table: &[u64], i: u64) -> Node
    ensures { result ≡ node table.now i }
{
    let w = start(table, i);
    if w == 0 {
        return Node {
            left: 0,
            sibling: 0,
            level: 0,
            fence: 0,
            slots: [0u64; 24],
        };
    }
    let slots = slots_from(table, w + 8);
    Node {
        left: table[w],
        sibling: table[w + 1],
        level: table[w + 2],
        fence: table[w + 3],
        slots,
    }
}

// Word j of node i; 0 past the node's end and for a number that no node has. 0 as in the definition and in a word that holds nothing, and no
// Option: each caller would put 0 in its place, or unwrap it.
pub fn word(table: &[u64], i: u64, j: usize) -> u64
    ensures { result ≡ word_of table.now i j }
{
    if 32 <= j {
        return 0;
    }
    let w = start(table, i);
    if w == 0 {
        return 0;
    }
    table[w + j]
}

// Whether a table of these collections can be made in a slice of this length, or why not.
pub fn may_make(table: &[u64], collections: u64) -> Outcome
    ensures { result ≡ passed (make_number collections table.now) }
{
    let n = nodes_in(table.len());
    if n == 0 {
        return Err(Refusal::NoTable);
    }
    match collections {
        1 => Ok(()),
        2 if n == 1 => Err(Refusal::NoTable),
        2 => Ok(()),
        _ => Err(Refusal::NoCollection),
    }
}

// An empty table of one or two collections over the whole slice. Only the length is tested; a refusal changes no word.
pub fn make(table: &mut [u64], collections: u64) -> Outcome
    ensures value { result ≡ making collections table.old }
    ensures table_after { table.new ≡ made collections table.old }
{
    may_make(table, collections)?;
    let n = nodes_in(table.len());
    table.fill(0);
    table[0] = 1;
    table[1] = 1;
    table[2] = n;
    table[8] = MARK;
    if collections == 1 {
        return Ok(());
    }
    table[3] = 2;
    table[40] = MARK;
    Ok(())
}

// The words of one slice put into another of the same length. Word by word: of a length that is not known `copy_from_slice` is a call of memmove,
// which the archives for C need from nowhere.
pub fn copy(from: &[u64], to: &mut [u64])
    requires { length to.old ≡ length from.now }
    ensures { to.new ≡ from.now }
{
    for (w, &word) in from.iter().enumerate() {
        to[w] = word;
    }
}

// The empty table of 4 nodes, with which the order printer and each short script start.
pub fn first_table() -> [u64; 136]
    ensures { result ≡ empty 4 }
{
    let mut table = [0u64; 136];
    let _ = make(&mut table, 1);
    table
}
