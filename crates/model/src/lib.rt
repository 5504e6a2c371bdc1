// The types that the calls take and answer with. A table, an order list and a listing are plain slices of words.
#![tactic(auto)]

ghost use Rattle.std.specs.Prelude.{◌≡◌};

use std::ops::Add;

// The largest word (document 01's MARK): left of a leaf, and a flush in an order list.
pub const MARK: u64 = 18446744073709551615;

// The first word of a barrier in an order list; its second is 0.
pub const BAR: u64 = 18446744073709551614;

// An order of a list, as its two words say: a store's word and value, a flush's line, or a barrier.
#[derive(Clone, Copy, PartialEq, Eq)]
pub enum ListedOrder {
    Store { word: u64, value: u64 },
    Flush { line: u64 },
    Barrier,
}

impl From<(u64, u64)> for ListedOrder {
    ghost use Rattle.model.specs.Orders.{order_of};
    ghost use Rattle.model.specs.ListedOrders.{meant};

    ghost from_gives = { λ words order. meant order ≡ order_of words.0 words.1 };

    // Each two words are one of the three: what is no flush and no barrier is a store.
    fn from(words: (u64, u64)) -> ListedOrder {
        match words {
            (MARK, line) => ListedOrder::Flush { line },
            (BAR, 0) => ListedOrder::Barrier,
            (word, value) => ListedOrder::Store { word, value },
        }
    }
}

// A node by value (document 01's record): its header words, and its 12 slots as key word, pointer word, key word, ..
#[derive(Clone, Copy)]
pub struct Node {
    pub left: u64,
    pub sibling: u64,
    pub level: u64,
    pub fence: u64,
    pub slots: [u64; 24],
}

// Why a call refuses, and its number: document 01's, then the requests', and our own from 25 on. No refusal has number 12. include/catalogue.h
// lists them with what each means.
#[derive(Clone, Copy, PartialEq, Eq)]
pub enum Refusal {
    NoCode = 1,
    NoTable = 2,
    SearchLost = 3,
    NotSound = 4,
    ShortList = 5,
    BadRecording = 6,
    KeyPresent = 7,
    RecordingPresent = 8,
    KeyAbsent = 9,
    NoNodes = 10,
    TooHigh = 11,
    BadOrders = 13,
    BadClass = 14,
    OtherLength = 15,
    ShortReport = 16,
    NoCollection = 17,
    NoDock = 18,
    OtherSentinels = 19,
    NotSettled = 20,
    ChangeRefused = 21,
    NoScript = 22,
    BadScript = 23,
    ShortFigures = 24,
    BadPairs = 25,
    OtherSummary = 26,
}

impl From<Refusal> for u8 {
    ghost use Rattle.model.specs.Numbers.{refusal_number};

    ghost from_gives = { λ r n. n ≡ refusal_number r };

    fn from(refusal: Refusal) -> u8 {
        refusal as u8
    }
}

impl From<Refusal> for u64 {
    ghost use Rattle.model.specs.Numbers.{refusal_number};

    ghost from_gives = { λ r n. n ≡ refusal_number r };

    fn from(refusal: Refusal) -> u64 {
        u64::from(u8::from(refusal))
    }
}

// What reading a code answers: its key.
pub type Parsed = Result<u64, Refusal>;

// What printing a key answers: the code's characters.
pub type Printed = Result<[u8; 12], Refusal>;

// What a search answers: the recording number and the access class of the key; or that it is absent, with the next one up, if there is one.
// Three cases in one enum, and no Result: document 01 names this form, and the refusal's number in it.
#[derive(Clone, Copy, PartialEq, Eq)]
pub enum Answer {
    Found { recording: u64, access: u64 },
    Absent(Option<u64>),
    Refused(u8),
}

// What a listing answers: how many pairs it wrote, and whether more were left. No Option of the count: it is there whether more were left or not.
#[derive(Clone, Copy)]
pub struct Page {
    pub count: u64,
    pub more: bool,
}

pub type Listed = Result<Page, Refusal>;

// What making and carry-out answer.
pub type Outcome = Result<(), Refusal>;

// What a write answers: how many stores, flushes and barriers its order list has.
#[derive(Clone, Copy, Default)]
pub struct Counts {
    pub stores: u64,
    pub flushes: u64,
    pub barriers: u64,
}

// The counts of a list with those of what follows it.
impl Add for Counts {
    type Output = Counts;

    ghost use Rattle.model.specs.Results.{CountsFit, counts_sum};

    ghost can_add = { CountsFit };

    ghost add_gives = { λ a b r. r ≡ counts_sum a b };

    fn add(self, rhs: Counts) -> Counts {
        Counts {
            stores: self.stores + rhs.stores,
            flushes: self.flushes + rhs.flushes,
            barriers: self.barriers + rhs.barriers,
        }
    }
}

pub type Written = Result<Counts, Refusal>;

// What a salvage answers: how many slots it dropped.
pub type Salvaged = Result<u64, Refusal>;

// What the judge of an order list answers: the first count of orders that fails, if one does.
pub type Verdict = Result<Option<u64>, Refusal>;

// The wear figures of an order list: its stores, the most to one line, the first line that has so many, and the number of pairs of offset and
// length that the words with a store came to.
#[derive(Clone, Copy)]
pub struct Figures {
    pub total: u64,
    pub largest: u64,
    pub first_line: u64,
    pub pairs: u64,
}

pub type Worn = Result<Figures, Refusal>;

// How many nodes have something unfinished: none, one (what is known of it), or more than one.
#[derive(Clone, Copy)]
pub enum Few<T> {
    Zero,
    One(T),
    Many,
}

// A node whose sibling lacks its slot in the parent.
#[derive(Clone, Copy)]
pub struct MissingSlot {
    pub parent: u64,
    pub node: u64,
}

// What a settled table has none of: hidden slots, each counted at its node; nodes that still show slots from their sibling's
// fence up; nodes whose sibling lacks its slot in the parent.
#[derive(Clone, Copy)]
pub struct Unfinished {
    pub hidden: Few<u64>,
    pub trailing: Few<u64>,
    pub missing: Few<MissingSlot>,
}

// How many nodes the check of a tree visited, from the root down, and what is unfinished in them. It answers this if none was unsound.
#[derive(Clone, Copy)]
pub struct Visited {
    pub count: u64,
    pub unfinished: Unfinished,
}

// What is answered if a script's number is asked for.
pub type Ranked = Result<u64, Refusal>;

// What many insertions in one call answer: the refusal that stopped it, none if all pairs were taken; how many pairs were taken, and what the
// order list has of all of them.
#[derive(Clone, Copy)]
pub struct Batch {
    pub stop: Option<Refusal>,
    pub taken: u64,
    pub counts: Counts,
}
