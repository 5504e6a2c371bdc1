// The order printer's bytes: a line read byte by byte, what it asks, and the text of an answer. No table is needed here.
#![tactic(auto)]

ghost use Rattle.std.specs.Prelude.{◌≡◌, [], ◌∷◌, ◌+◌, ◌*◌, ◌/◌, ◌≤◌, min, length, take};
ghost use Rattle.model.specs.Text.{ascii};
ghost use Rattle.model.specs.Orders.{order_of, decode};
ghost use Rattle.model.specs.Printer.{decimal, printed, order_text, refused_line};
ghost use Rattle.script_bytes.specs.Line.{begin, next_place, moved, with_sign, longer, with_character, next_number, with_digit, step};
ghost use Rattle.script_bytes.specs.Line.{line_in, code_of, request, begun};

use model::{BAR, Counts, ListedOrder, Parsed, Refusal, Written};

// Where in a line's form its bytes so far end.
#[derive(Clone, Copy)]
pub enum Place {
    Start,
    Sign,
    CodeStart,
    Code,
    RecordingStart,
    Recording,
    Other,
}

// Characters so far, of any number: the first 12 as bytes (fixed memory, no heap), and how many they are, 13 for any number above 12. None for
// that is no plainer: `longer` compares the count with 12 and adds 1, and would match the Option first.
#[derive(Clone, Copy)]
pub struct Characters {
    pub bytes: [u8; 12],
    pub count: usize,
}

// A line so far, of any length: where its form stands, whether its sign is a plus, its code, and the value of its recording's digits.
// An enum with these in its cases is no plainer: sign and code would stand in three cases each, and `line_in` speaks of one state.
#[derive(Clone, Copy)]
pub struct LineState {
    pub place: Place,
    pub plus: bool,
    pub code: Characters,
    pub recording: u64,
}

// A piece of the input read up to its first line feed: the line so far, and the place after the line feed, if there is one.
#[derive(Clone, Copy)]
pub struct LineRead {
    pub line: LineState,
    pub end: Option<usize>,
}

// What a line of document 01's two forms asks for.
#[derive(Clone, Copy)]
pub enum Request {
    Insertion { key: u64, recording: u64 },
    Deletion(u64),
}

// What a line asks: nothing, if it is of another form; a code that is none is refused.
pub type Asked = Result<Option<Request>, Refusal>;

// ---- reading a line

// A line with no byte yet. `Default` derived on three types is no plainer: it spreads over them what stands here in one place.
pub fn start() -> LineState
    ensures { result ≡ begin }
{
    LineState {
        place: Place::Start,
        plus: false,
        code: Characters {
            bytes: [0u8; 12],
            count: 0,
        },
        recording: 0,
    }
}

// Where in the form byte b stands. Whether the sign is a plus is data, which the line's state has too.
#[tactic(auto, unfolding(crate::specs::Line::next_place))]
fn next_place(place: Place, plus: bool, b: u8) -> Place
    ensures { result ≡ next_place place plus b }
{
    match (place, b) {
        (Place::Start, b'+' | b'-') => Place::Sign,
        (Place::Sign, b' ') => Place::CodeStart,
        (Place::CodeStart, b' ') => Place::Other,
        (Place::Code, b' ') if plus => Place::RecordingStart,
        (Place::Code, b' ') => Place::Other,
        (Place::CodeStart | Place::Code, _) => Place::Code,
        (Place::RecordingStart | Place::Recording, _) => Place::Recording,
        _ => Place::Other,
    }
}

// The line at another place, all else the same.
fn moved(s: &mut LineState, place: Place)
    ensures { s.new ≡ moved s.old place }
{
    s.place = place;
}

// The line with its sign.
fn with_sign(s: &mut LineState, b: u8)
    ensures { s.new ≡ with_sign s.old b }
{
    s.place = Place::Sign;
    s.plus = b == b'+';
}

// One character more.
fn longer(text: &mut Characters, b: u8)
    ensures { text.new ≡ longer text.old b }
{
    if 12 <= text.count {
        text.count = 13;
        return;
    }
    text.bytes[text.count] = b;
    text.count += 1;
}

// The line with one character more of its code.
fn with_character(s: &mut LineState, b: u8)
    ensures { s.new ≡ with_character s.old b }
{
    s.place = Place::Code;
    longer(&mut s.code, b);
}

// The number with one byte more, which is to be a digit and leave it within a word. `char::to_digit(10)` is no plainer: it takes a char and answers a
// `u32`, so that the byte would be cast before it and the digit after it.
fn next_number(n: u64, b: u8) -> Option<u64>
    ensures { result ≡ next_number n b }
{
    if !b.is_ascii_digit() {
        return None;
    }
    n.checked_mul(10)?.checked_add((b - b'0') as u64)
}

// The line with one byte more of its recording.
fn with_digit(s: &mut LineState, b: u8)
    ensures { s.new ≡ with_digit s.old b }
{
    match next_number(s.recording, b) {
        Some(recording) => {
            s.place = Place::Recording;
            s.recording = recording;
        }
        None => moved(s, Place::Other),
    }
}

// The line with one byte more, which is no line feed. In place: a line that goes in and comes back by value is copied for each byte.
fn take(s: &mut LineState, b: u8)
    ensures { s.new ≡ step s.old b }
{
    let place = next_place(s.place, s.plus, b);
    match place {
        Place::Sign => with_sign(s, b),
        Place::Code => with_character(s, b),
        Place::Recording => with_digit(s, b),
        _ => moved(s, place),
    }
}

// The line with the bytes of a piece up to its first line feed, which is used too; with all of them if it has none.
pub fn read_line(line: LineState, piece: &[u8]) -> LineRead
    ensures { result ≡ line_in line piece.now }
{
    let mut s = line;
    for (i, &b) in piece.iter().enumerate() {
        if b == b'\n' {
            return LineRead {
                line: s,
                end: Some(i + 1),
            };
        }
        take(&mut s, b);
    }
    LineRead { line: s, end: None }
}

// ---- what a line asks

// The key of a code that was read.
fn code_of(code: Characters) -> Parsed
    ensures { result ≡ code_of code }
{
    if code.count != 12 {
        return Err(Refusal::NoCode);
    }
    isrc::parse(&code.bytes)
}

// What the line asks, its bytes being all read.
pub fn judge(s: LineState) -> Asked
    ensures { result ≡ request s }
{
    match s.place {
        Place::Code if s.plus => Ok(None),
        Place::Code => Ok(Some(Request::Deletion(code_of(s.code)?))),
        Place::Recording => {
            let key = code_of(s.code)?;
            let recording = s.recording;
            Ok(Some(Request::Insertion { key, recording }))
        }
        _ => Ok(None),
    }
}

// Whether the line has a byte: at the end of the input an empty line does not count.
pub fn begun(s: LineState) -> bool
    ensures { result ≡ begun s.place }
{
    !matches!(s.place, Place::Start)
}

// ---- printing

// A text under way: the lent buffer, and how many of its bytes are put. What each function below puts comes after them.
#[derive(Drop)]
pub struct Text<'a> {
    pub out: &'a mut [u8],
    pub at: usize,
    ghost within: { at ≤ length out.now },
}

// How many digits n has.
fn width(n: u64) -> usize
    ensures { result ≡ length (decimal n) }
{
    n.max(1).ilog10() as usize + 1
}

// How many orders are printed: as many as the answer counts, and no more than the list has. Cut before the cast, as a `usize` may have 32 bits.
fn spoken_count(words: usize, counts: Counts) -> usize
    ensures { result ≡ min (counts.stores + counts.flushes) (words / 2) }
{
    let orders = counts.stores.saturating_add(counts.flushes);
    orders.min(words as u64 / 2) as usize
}

impl Text<'_> {
    ghost use Rattle.script_bytes.specs.Text.{bytes_of, Room, Puts, order_lines, spoken};

    // The bytes that are put.
    pub fn bytes(&self) -> &[u8]
        ensures { result.now ≡ bytes_of self.now }
    {
        &self.out[..self.at]
    }

    // One byte. That there is room is a clause, here and below: each byte takes some of it.
    pub fn put_byte(&mut self, b: u8)
        requires { Room 1 self.old }
        ensures { Puts (b ∷ []) self.old self.new }
    {
        let at = self.at;
        self.out[at] = b;
        self.at = at + 1;
    }

    fn put_word(&mut self, word: &[u8])
        requires { Room (length word.now) self.old }
        ensures { Puts word.now self.old self.new }
    {
        let at = self.at;
        let end = at + word.len();
        self.out[at..end].copy_from_slice(word);
        self.at = end;
    }

    // n in decimal. Only of a `write!` to a String are the bytes promised, and a String needs a heap.
    pub fn put_number(&mut self, n: u64)
        requires { Room 20 self.old }
        ensures { Puts (decimal n) self.old self.new }
    {
        let at = self.at;
        let end = at + width(n);
        isrc::write_digits(&mut self.out[at..end], 10, n);
        self.at = end;
    }

    // A space and a number.
    fn put_field(&mut self, n: u64)
        requires { Room 21 self.old }
        ensures { Puts (32 ∷ decimal n) self.old self.new }
    {
        self.put_byte(b' ');
        self.put_number(n);
    }

    // A line of a word of text and some numbers.
    fn put_line(&mut self, word: &[u8], numbers: &[u64])
        requires { Room (length word.now + 21 * length numbers.now + 1) self.old }
        ensures { Puts (printed word.now numbers.now) self.old self.new }
    {
        self.put_word(word);
        for &n in numbers {
            self.put_field(n);
        }
        self.put_byte(b'\n');
    }

    // The line of an order's two words in the list. 48 bytes are room for any line that is printed.
    pub fn put_order(&mut self, first: u64, second: u64)
        requires { Room 48 self.old }
        ensures { Puts (order_text (order_of first second)) self.old self.new }
    {
        match ListedOrder::from((first, second)) {
            ListedOrder::Flush { line } => self.put_line(b"flush", &[line]),
            ListedOrder::Store { word, value } => self.put_line(b"store", &[word, value]),
            // As a store of its two words.
            ListedOrder::Barrier => self.put_line(b"store", &[BAR, 0]),
        }
    }

    // The line after the orders, with their two counts.
    pub fn put_done(&mut self, stores: u64, flushes: u64)
        requires { Room 48 self.old }
        ensures { Puts (printed (ascii "done") (stores ∷ flushes ∷ [])) self.old self.new }
    {
        self.put_line(b"done", &[stores, flushes]);
    }

    // The line of a refusal.
    pub fn put_refused(&mut self, number: u64)
        requires { Room 48 self.old }
        ensures { Puts (refused_line number) self.old self.new }
    {
        self.put_line(b"refused", &[number]);
    }

    // The lines of the first orders of a list.
    fn put_orders(&mut self, list: &[u64], count: usize)
        requires { Room (48 * count) self.old }
        ensures { Puts (order_lines (take count (decode list.now))) self.old self.new }
    {
        for pair in list.chunks_exact(2).take(count) {
            self.put_order(pair[0], pair[1]);
        }
    }

    // All that a request is answered with, from its answer and the list after it.
    // A list's word has 24 bytes, half an order's 48, and the last line has 48.
    pub fn put_answer(&mut self, list: &[u64], answer: Written)
        requires { Room (24 * length list.now + 48) self.old }
        ensures { Puts (spoken answer list.now) self.old self.new }
    {
        match answer {
            Ok(counts) => {
                let count = spoken_count(list.len(), counts);
                self.put_orders(list, count);
                self.put_done(counts.stores, counts.flushes);
            }
            Err(refusal) => self.put_refused(u64::from(refusal)),
        }
    }
}
