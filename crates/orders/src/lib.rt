// The order list of a write: each store is made on the working copy and listed, after the flush that is due; for dock 1 its barrier follows.
#![tactic(auto)]

ghost use Rattle.std.specs.Prelude.{◌≡◌, [], ◌∷◌, ◌+◌, ◌≤◌, length};
ghost use Rattle.model.specs.Orders.{put};
ghost use Rattle.orders.specs.Desk.{first_pen, of, listed, turned, finished, ruled, Room, Ruling, Becomes, Makes};

use model::{BAR, Counts, MARK};

// Whether the processor keeps stores to one line in order; document 02's request 7 has the numbers: 0 ordered, 1 unordered.
#[derive(Clone, Copy, PartialEq, Eq)]
pub enum Dock {
    Ordered,
    Unordered,
}

impl From<u64> for Dock {
    ghost use Rattle.orders.specs.Desk.{dock_of};

    ghost from_gives = { λ n d. d ≡ dock_of n };

    // Any number but 0 is that of the unordered dock, as in `barred` of the model: so `Pen::new` needs no clause, and calls test the number where
    // they are judged.
    fn from(number: u64) -> Dock {
        match number {
            0 => Dock::Ordered,
            _ => Dock::Unordered,
        }
    }
}

// How far a write has come in its list, which is for this dock: the words filled, the line that is open, if one is, and what is counted.
#[derive(Clone, Copy)]
pub struct Pen {
    pub dock: Dock,
    pub at: usize,
    pub line: Option<u64>,
    pub counts: Counts,
}

impl Pen {
    // Before the first order of a list for the dock.
    pub fn new(dock: u64) -> Self
        ensures { result ≡ first_pen dock }
    {
        Pen {
            dock: Dock::from(dock),
            at: 0,
            line: None,
            counts: Counts::default(),
        }
    }
}

// A write under way: the working copy, the lent list and how far it has come. Four calls write it out: a `new` would take the same three and
// need a clause that it holds them, which each proof reads off what is written. What begins is the pen, which has a `new`.
#[derive(Drop)]
pub struct Writer<'a> {
    pub table: &'a mut [u64],
    pub list: &'a mut [u64],
    pub pen: Pen,
}

impl Writer<'_> {
    // The working copy, to read.
    pub fn table(&self) -> &[u64]
        ensures { result.now ≡ self.now.table.now }
    {
        &*self.table
    }

    // Makes a store on the working copy and lists it, after the flush that is due, with its barrier.
    pub fn store(&mut self, w: usize, x: u64)
        requires { Room (put w x ∷ []) (of self.old) }
        ensures { Makes (put w x ∷ []) self.old self.new }
    {
        let line = (w / 8) as u64;
        self.turn(line);
        self.table[w] = x;
        self.put(w as u64, x);
        self.pen.line = Some(line);
        self.pen.counts.stores += 1;
        self.rule();
    }

    // Ends the list with the flush of the open line, and answers what the list has. That there is room is a clause, here and below: each order takes
    // some of it.
    pub fn finish(&mut self) -> Counts
        requires { Room [] (of self.old) }
        ensures writer { Becomes self.old (finished (of self.old)) self.new }
        ensures counts { result ≡ (finished (of self.old)).pen.counts }
    {
        self.flush();
        self.pen.counts
    }

    // Puts an order's two words behind those that are filled.
    fn put(&mut self, first: u64, second: u64)
        requires { self.old.pen.at + 2 ≤ length self.old.list.now }
        ensures { Becomes self.old (listed first second (of self.old)) self.new }
    {
        let at = self.pen.at;
        self.list[at] = first;
        self.list[at + 1] = second;
        self.pen.at = at + 2;
    }

    // Lists the flush of the open line, if there is one.
    fn flush(&mut self)
        requires { Room [] (of self.old) }
        ensures { Becomes self.old (finished (of self.old)) self.new }
    {
        if let Some(line) = self.pen.line.take() {
            self.put(MARK, line);
            self.pen.counts.flushes += 1;
        }
    }

    // Lists the flush that is due before a store to this line.
    fn turn(&mut self, line: u64)
        requires { Room [] (of self.old) }
        ensures { Becomes self.old (turned line (of self.old)) self.new }
    {
        if self.pen.line != Some(line) {
            self.flush();
        }
    }

    // Lists the barrier that follows a store, if the dock needs one.
    fn rule(&mut self)
        requires { Ruling (of self.old) }
        ensures { Becomes self.old (ruled (of self.old)) self.new }
    {
        if self.pen.dock == Dock::Unordered {
            self.put(BAR, 0);
            self.pen.counts.barriers += 1;
        }
    }
}
