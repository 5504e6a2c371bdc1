// The nodes of a level, one by one along the siblings.

// Those from a node on, at most so many; 0 is no node. 0, and no Option: the next one goes in as its sibling word has it, and is tested once.
#[derive(Clone, Copy)]
pub struct Siblings<'a> {
    table: &'a [u64],
    next: u64,
    left: u64,
}

impl<'a> Siblings<'a> {
    ghost use Rattle.std.specs.Prelude.{◌≡◌};
    ghost use Rattle.model.specs.Slots.{view};
    ghost use Rattle.walk_laws.specs.Chain.{along};
    ghost use Rattle.leaves.specs.Siblings.{siblings_left};

    pub fn new(table: &'a [u64], first: u64, most: u64) -> Self
        ensures { siblings_left result ≡ along (view table.now) most first }
    {
        Siblings {
            table,
            next: first,
            left: most,
        }
    }
}

impl<'a> Iterator for Siblings<'a> {
    ghost use Rattle.std.specs.Iterator.{YieldsFirst, at_most};
    ghost use Rattle.leaves.specs.Siblings.{siblings_left};

    type Item = u64;

    ghost next_gives = { YieldsFirst siblings_left };

    ghost remaining = { λ s. at_most s.left };

    fn next(&mut self) -> Option<u64> {
        if self.left == 0 || self.next == 0 {
            return None;
        }
        let n = self.next;
        self.next = node::word(self.table, n, 1);
        self.left -= 1;
        Some(n)
    }
}
