// The ways down from a node. In a file of its own: the lists that it stands for are defined by it, and a struct with a ghost field may not name them.

ghost use Rattle.std.specs.Prelude.{◌≤◌};

// Left, with the node's fence as key, then the node's kept slots.
// Memory is fixed: so a count stands beside the arrays. The pointers are an array of their own: callers lend a part of them on as a slice.
#[derive(Clone, Copy)]
pub struct Ways {
    pub count: usize,
    pub keys: [u64; 13],
    pub pointers: [u64; 13],
    pub ghost count_bound: { count ≤ 13 },
}
