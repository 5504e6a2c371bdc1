// The order printer: reads standard input in pieces, hands each to `script`, and writes what that leaves as its text.
#![tactic(auto)]

ghost use Rattle.std.specs.Prelude.{◌≡◌};
ghost use Rattle.model.specs.Printer.{first_desk};
ghost use Rattle.script.specs.Session.{desk, After};

use script::Session;
use std::io;
use std::io::Read;

// Room for what the longest line prints: 24 bytes for each of the list's 2,560 words, and 48 more.
const ROOM: usize = 61488;

// A text, written, unless an earlier write failed.
fn print(rt: &impl Print, wrote: &mut io::Result<()>, text: &[u8]) {
    if !text.is_empty() && wrote.is_ok() {
        *wrote = rt.write_all(text);
    }
}

// A piece of the input, line by line. That a write failed is kept, and not handed on by `?`: what is promised of the table and the list
// holds then too.
fn read_piece(rt: &impl Print, wrote: &mut io::Result<()>, session: &mut Session<'_>, piece: &[u8])
    ensures { After session.old piece.now session.new }
{
    let mut rest = piece;
    // A call promises that it uses some bytes, and not that it uses a whole line: a split at line feeds would rest on that.
    while !rest.is_empty() {
        let used = session.read_line(rest);
        print(rt, wrote, session.text.bytes());
        rest = &rest[used..];
    }
}

// All of standard input, or up to a piece that is not read or whose lines are not written. A loop is proved to end, and of an input nothing
// says that it does: the bound is more pieces than any has.
fn read_input(rt: &(impl Print + Input), session: &mut Session<'_>) -> io::Result<()>
    requires { desk session.old ≡ first_desk }
{
    let mut input = rt.reader();
    let mut wrote = Ok(());
    // A piece: memory is fixed, there is no heap.
    let mut buffer = [0u8; 4096];
    for _ in 0..1099511627776u64 {
        if wrote.is_err() {
            break;
        }
        let n = input.read(&mut buffer)?;
        if n == 0 {
            break;
        }
        read_piece(rt, &mut wrote, session, &buffer[..n]);
    }
    session.finish();
    print(rt, &mut wrote, session.text.bytes());
    wrote
}

fn main(rt: HostRuntime) -> io::Result<()> {
    let mut table = script::first_table();
    let mut list = script::first_list();
    // What a line prints: memory is fixed, there is no heap.
    let mut out = [0u8; ROOM];
    let mut session = Session::new(&mut table, &mut list, &mut out);
    read_input(&rt, &mut session)
}
