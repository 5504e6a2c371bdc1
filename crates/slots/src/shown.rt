// The shown slots of a node, one by one.

// The words of the slots that are left, and the pointer before them. A slice: a walk takes two words off its front for each slot.
#[derive(Clone, Copy)]
pub struct Shown<'a> {
    slots: &'a [u64],
    before: u64,
}

impl<'a> Shown<'a> {
    ghost use Rattle.std.specs.Prelude.{◌≡◌, ◌≤◌, length};
    ghost use Rattle.slots.specs.Scan.{shown_from};
    ghost use Rattle.slots.specs.Shown.{shown_left};

    pub fn new(slots: &'a [u64; 24], left: u64) -> Self
        ensures value { shown_left result ≡ shown_from left slots.now 0 }
        ensures bound { length (shown_left result) ≤ 12 }
    {
        Shown {
            slots,
            before: left,
        }
    }
}

// The key and the pointer of each.
impl<'a> Iterator for Shown<'a> {
    ghost use Rattle.std.specs.Iterator.{YieldsFirstBy, item_count};
    ghost use Rattle.slots.specs.Shown.{shown_left, slot_of};

    type Item = (u64, u64);

    ghost next_gives = { YieldsFirstBy slot_of shown_left };

    ghost remaining = { item_count shown_left };

    fn next(&mut self) -> Option<(u64, u64)> {
        while let [key, pointer, others @ ..] = self.slots {
            if *pointer == 0 {
                return None;
            }
            let before = self.before;
            self.before = *pointer;
            self.slots = others;
            if *pointer != before {
                return Some((*key, *pointer));
            }
        }
        None
    }
}
