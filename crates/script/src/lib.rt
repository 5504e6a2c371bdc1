// The order printer, but for reading its input and writing its output: each call takes what was read, and leaves what is to be written
// in a lent buffer.
#![tactic(auto)]

ghost use Rattle.std.specs.Prelude.{◌≡◌, ◌+◌, ◌*◌, ◌≤◌, length, Some, Ok};
ghost use Rattle.model.specs.Printer.{first_desk};
ghost use Rattle.script_bytes.specs.Line.{begin, request};
ghost use Rattle.script_bytes.specs.Input.{do_request, print_on, finished};
ghost use Rattle.script.specs.Spoken.{desk_of, answer_to, silent};

use model::Written;
pub use node::first_table;
use script_bytes::{LineState, Request, Text};

// The printer between two pieces of its input: the table and the order list, the text that the last call left to be written, and the line
// so far. All three slices are lent: memory is fixed, and the caller chooses the list's length. The text has 24 bytes for each of the list's
// words and 48 more.
#[derive(Drop)]
pub struct Session<'a> {
    pub table: &'a mut [u64],
    pub list: &'a mut [u64],
    pub text: Text<'a>,
    pub line: LineState,
    ghost room: { 24 * length list.now + 48 ≤ length text.out.now },
}

// ---- what the printer starts with

// The order list of zeros; the table is the first table of `node`.
pub fn first_list() -> [u64; 2560]
    ensures { result ≡ first_desk.list }
{
    [0u64; 2560]
}

// ---- lines

// A request's call on the table.
pub fn act(table: &mut [u64], list: &mut [u64], request: Request) -> Written
    ensures value { result ≡ answer_to request (desk_of table.old list.old) }
    ensures table_after { table.new ≡ (do_request (Ok (Some request)) (desk_of table.old list.old)).desk.table }
    ensures list_after { list.new ≡ (do_request (Ok (Some request)) (desk_of table.old list.old)).desk.list }
{
    match request {
        Request::Insertion { key, recording: r } => insert::insert(table, list, 0, 1, key, r, 0),
        Request::Deletion(key) => delete::delete(table, list, 0, 1, key),
    }
}

impl<'a> Session<'a> {
    ghost use Rattle.script.specs.Session.{desk, Left, Told};

    // Before the first byte of the input; it holds the lent slices themselves.
    pub fn new(table: &'a mut [u64], list: &'a mut [u64], out: &'a mut [u8]) -> Self
        requires { 24 * length list.old + 48 ≤ length out.old }
        ensures desk { desk result ≡ desk_of table.old list.old }
        ensures line { result.line ≡ begin }
        ensures nothing_put { result.text.at ≡ 0 }
        ensures table_lent { result.table ≡ table.entry }
        ensures list_lent { result.list ≡ list.entry }
        ensures buffer_lent { result.text.out ≡ out.entry }
    {
        let text = Text { out, at: 0 };
        let line = script_bytes::start();
        Session {
            table,
            list,
            text,
            line,
        }
    }

    // The line carried out, and its text put. A line of another form is refused with 0.
    fn end_line(&mut self)
        ensures { Left (do_request (request self.old.line) (desk self.old)) self.old self.new }
    {
        self.text.at = 0;
        match script_bytes::judge(self.line) {
            Ok(Some(request)) => {
                // Lent once for both: of a list that is lent again only the length is known.
                let list = &mut *self.list;
                let answer = act(self.table, list, request);
                self.text.put_answer(list, answer);
            }
            Ok(None) => self.text.put_refused(0),
            Err(refusal) => self.text.put_refused(u64::from(refusal)),
        }
    }

    // The bytes of a piece up to its first line feed, at which the line is carried out; all of them if it has none. How many they are.
    pub fn read_line(&mut self, piece: &[u8]) -> usize
        ensures { Told self.old piece.now result self.new }
    {
        let read = script_bytes::read_line(self.line, piece);
        self.line = read.line;
        let Some(used) = read.end else {
            self.text.at = 0;
            return piece.len();
        };
        self.end_line();
        self.line = script_bytes::start();
        used
    }

    // The end of the input: an unfinished line counts unless it is empty.
    pub fn finish(&mut self)
        ensures { Left (finished print_on (silent self.old.line (desk self.old))) self.old self.new }
    {
        if script_bytes::begun(self.line) {
            self.end_line();
            return;
        }
        self.text.at = 0;
    }
}
