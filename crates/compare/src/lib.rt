// Two tables compared: whether the pairs of a tree in one are those of a tree in the other, but for the pointer of one key.
#![tactic(auto)]

ghost use Rattle.std.specs.Prelude.{◌≡◌, true, false, ◌≤◌, ◌<◌};
ghost use Rattle.model.specs.Slots.{view_from, view};
ghost use Rattle.model.specs.Reached.{mapping};
ghost use Rattle.model.specs.SoundTest.{sound_view};
ghost use Rattle.model.specs.Ledger.{leave};
ghost use Rattle.compare.specs.Along.{all_pairs};
ghost use Rattle.compare.specs.Cursors.{pairs_at, at_end, goes_on, past, distance, same_pair, same_but};
ghost use Rattle.compare.specs.Pointers.{held, old_or_new};

use slots::Ways;

// ---- the pairs of a tree, one by one

// A place among the pairs of a tree: a leaf's ways, the next of them, the next leaf, and how many leaves may follow. 0 for no leaf, as in a node:
// an Option of it would be made anew from the word at each leaf.
// No `Siblings`: whether a leaf follows is asked before it is taken. `peekable` could say so, but it changes what it looks at and keeps an Option in
// an Option: `pairs_at` and `distance` would be of what was looked at and of the rest.
// The table is none of its fields, and is handed in: tried and proved, but targets/width.py refuses numbers with a pointer that are copied whole.
#[derive(Clone, Copy)]
struct Cursor {
    ways: Ways,
    at: usize,
    next: u64,
    left: u64,
}

impl Cursor {
    // Before the first pair.
    fn start(table: &[u64], root: u64) -> Cursor
        ensures { pairs_at (view table.now) result ≡ all_pairs (view_from table.now root) }
    {
        // Written out: a `Default` of Ways would be an impl in slots that serves here alone.
        let ways = Ways {
            count: 0,
            keys: [0u64; 13],
            pointers: [0u64; 13],
        };
        Cursor {
            ways,
            at: 0,
            next: leaves::first_leaf(table, root),
            left: leaves::word_at(table, 2),
        }
    }

    // Whether the leaf has no pair more.
    #[tactic(auto, unfolding(crate::specs::Cursors::at_end))]
    fn at_end(self) -> bool
        ensures { result ≡ at_end self }
    {
        self.ways.count <= self.at
    }

    // Whether to go on: the leaf has no pair more and another leaf follows, or the pair has this key.
    #[tactic(auto, unfolding(crate::specs::Cursors::goes_on, crate::specs::Cursors::at_end))]
    fn goes_on(self, key: u64) -> bool
        ensures { result ≡ goes_on key self }
    {
        if self.at_end() {
            self.next != 0 && self.left != 0
        } else {
            self.ways.keys[self.at] == key
        }
    }

    // One pair further.
    fn past(self) -> Cursor
        requires { self.at < self.ways.count }
        ensures { result ≡ past self }
    {
        Cursor {
            at: self.at + 1,
            ..self
        }
    }

    // The next leaf, if the present one has no pair more.
    fn load(self, table: &[u64]) -> Cursor
        requires count_le_at { self.ways.count ≤ self.at }
        requires fact { (self.next ≡ 0 → ⊥) × (self.left ≡ 0 → ⊥) }
        ensures result_value { pairs_at (view table.now) result ≡ pairs_at (view table.now) self }
        ensures nearer { distance result < distance self }
    {
        Cursor {
            ways: leaves::ways_of(table, self.next),
            at: 1,
            next: node::word(table, self.next, 1),
            left: self.left - 1,
        }
    }

    // From here on to the first pair of another key, or to the end.
    fn seek(self, table: &[u64], key: u64) -> Cursor
        ensures result_value { leave key (pairs_at (view table.now) result) ≡ leave key (pairs_at (view table.now) self) }
        ensures stops { goes_on key result ≡ false }
        ensures nearer { distance result ≤ distance self }
    {
        let mut c = self;
        // A turn goes to the next leaf or the next slot: no count says how many.
        while c.goes_on(key) {
            if c.at_end() {
                c = c.load(table);
            } else {
                c = c.past();
            }
        }
        c
    }

    // Whether another place has the same pair, if this one has a pair.
    #[tactic(auto, unfolding(crate::specs::Cursors::same_pair, crate::specs::Cursors::at_end))]
    fn same_pair(self, other: Cursor) -> bool
        requires { self.at < self.ways.count }
        ensures { result ≡ same_pair self other }
    {
        !other.at_end()
            && self.ways.keys[self.at] == other.ways.keys[other.at]
            && self.ways.pointers[self.at] == other.ways.pointers[other.at]
    }
}

// Whether two trees have the same pairs, but for one key. Table and root stay two parameters, here and below: a `Tree<'a> { table, root }` would be no
// plainer. Judge would make each for one call, and `reach` and `leaves`, which take a table and a node, would have it taken apart.
fn same_but(image: &[u64], top: u64, table: &[u64], root: u64, key: u64) -> bool
    ensures { result ≡ same_but key (all_pairs (view_from image.now top)) (all_pairs (view_from table.now root)) }
{
    let mut a = Cursor::start(image, top).seek(image, key);
    let mut b = Cursor::start(table, root).seek(table, key);
    // Two cursors that go on together, each past the key, while the pairs are the same. `Iterator::eq` would be no plainer: the cursor would still be
    // there, with `next` over `past` and `seek`, and the laws of what that yields besides those of a place.
    while !a.at_end() && a.same_pair(b) {
        a = a.past().seek(image, key);
        b = b.past().seek(table, key);
    }
    a.at_end() && b.at_end()
}

// ---- two trees

// The pointer of a key in the map of the tree under a root, if the key is there.
// That the tree is sound is a clause, here and below: a `Tree<'a> { table, root }` with the fact as a ghost field would be no plainer. Judge would
// make each for one call, and `reach` and `leaves`, which take a table and a node, would have it taken apart.
pub fn held(table: &[u64], root: u64, key: u64) -> Option<u64>
    requires { sound_view (view_from table.now root) ≡ true }
    ensures { result ≡ held key (mapping (view_from table.now root)) }
{
    let leaf = reach::standing(table, root, 0, key);
    let x = node::read(table, leaf);
    slots::find(x.slots, x.left, key)
}

// Whether the map of an image's tree is the table's or, in the tree that is to change, the new one.
// own is data: whether the change names this tree. With the new pointer, which may be none, it would be an Option in an Option: no
// plainer, since each call would make it with `then_some` and this function would take it apart.
pub fn tree_ok(
    image: &[u64],
    top: u64,
    table: &[u64],
    root: u64,
    own: bool,
    key: u64,
    pointer: Option<u64>,
) -> bool
    requires top_value { sound_view (view_from image.now top) ≡ true }
    requires root_value { sound_view (view_from table.now root) ≡ true }
    ensures { result ≡ old_or_new own key pointer (mapping (view_from table.now root)) (mapping (view_from image.now top)) }
{
    let before = held(table, root, key);
    let after = held(image, top, key);
    let fits = after == before || own && after == pointer;
    fits && same_but(image, top, table, root, key)
}
