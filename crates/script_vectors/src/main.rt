// Reads lines from standard input in pieces of seven bytes and writes what is judged of each; then some inputs of a few bytes,
// and the lines that the printer prints.
#![tactic(auto)]

use script_bytes::{Asked, LineRead, LineState, Request, Text};
use std::io;
use std::io::Read;

// ---- reading

// What a line asks; a line of another form is refused with 0.
fn show(rt: &impl Print, asked: Asked) -> io::Result<()> {
    match asked {
        Ok(Some(Request::Insertion { key, recording })) => println!(rt;
            "insertion {key} {recording}"
        ),
        Ok(Some(Request::Deletion(key))) => println!(rt; "deletion {key}"),
        Ok(None) => println!(rt; "refused 0"),
        Err(refusal) => println!(rt; "refused {}", u64::from(refusal)),
    }
}

// A line that has ended is shown, and a new one starts.
fn shown(rt: &impl Print, read: LineRead) -> io::Result<LineState> {
    let line = read.line;
    if read.end.is_some() {
        show(rt, script_bytes::judge(line))?;
        return Ok(script_bytes::start());
    }
    Ok(line)
}

fn read_piece(rt: &impl Print, line: LineState, piece: &[u8]) -> io::Result<LineState> {
    let mut s = line;
    let mut rest = piece;
    // With the bytes past the line feed: how many a line uses shows too. A turn uses one at least.
    for _ in 0..piece.len() {
        let read = script_bytes::read_line(s, rest);
        let used = read.end.unwrap_or(rest.len());
        s = shown(rt, read)?;
        rest = rest.get(used..).unwrap_or_default();
        if rest.is_empty() {
            break;
        }
    }
    Ok(s)
}

// The end of the input: an unfinished line counts unless it is empty.
fn finish(rt: &impl Print, s: LineState) -> io::Result<()> {
    if script_bytes::begun(s) {
        show(rt, script_bytes::judge(s))?;
    }
    Ok(())
}

fn read_input(rt: &(impl Print + Input)) -> io::Result<()> {
    let mut input = rt.reader();
    let mut s = script_bytes::start();
    // Pieces that end within codes and numbers.
    let mut buffer = [0u8; 7];
    // More pieces than the input has: a loop is proved to end.
    for _ in 0..10000 {
        let n = input.read(&mut buffer)?;
        if n == 0 {
            break;
        }
        s = read_piece(rt, s, &buffer[..n])?;
    }
    finish(rt, s)
}

// A whole input of a few bytes.
fn input(rt: &impl Print, bytes: &[u8]) -> io::Result<()> {
    println!(rt; "input")?;
    let s = read_piece(rt, script_bytes::start(), bytes)?;
    finish(rt, s)
}

// Empty lines, none, unfinished ones, and more than one.
const INPUTS: [&[u8]; 12] = [
    b"",
    b"\n",
    b"\n\n",
    b" ",
    b"-",
    b"\n-",
    b"- AA0001912345",
    b"- AA0001912345\n",
    b"- AA0001912345\n\n",
    b"- AA0001912345\n+",
    b"+ AA0001912345 7",
    b"+ AA0001912345 7\n- AA0001912345",
];

// ---- printing

// A line that the printer prints after a line of its input.
#[derive(Clone, Copy)]
enum Printed {
    Order(u64, u64),
    Done(u64, u64),
    Refused(u64),
}

// What is put for a line, past the first seven bytes of its buffer.
fn show_line(rt: &impl Print, line: Printed) -> io::Result<()> {
    // Room for one line: memory is fixed, there is no heap.
    let mut out = [0u8; 60];
    let mut text = Text {
        out: &mut out,
        at: 7,
    };
    match line {
        Printed::Order(first, second) => text.put_order(first, second),
        Printed::Done(stores, flushes) => text.put_done(stores, flushes),
        Printed::Refused(number) => text.put_refused(number),
    }
    match text.bytes().get(7..) {
        Some(part) => rt.write_all(part),
        None => Ok(()),
    }
}

// Numbers with few digits, and in orders and counts with all twenty.
const LINES: [Printed; 15] = [
    Printed::Order(16, 172627201912345),
    Printed::Order(17, 18446744073709551615),
    Printed::Order(0, 0),
    Printed::Order(9, 10),
    Printed::Order(99, 100),
    Printed::Order(18446744073709551614, 10000000000000000000),
    Printed::Order(18446744073709551614, 9999999999999999999),
    Printed::Order(18446744073709551615, 2),
    Printed::Order(18446744073709551615, 18446744073709551615),
    Printed::Done(4, 1),
    Printed::Done(0, 0),
    Printed::Done(18446744073709551615, 18446744073709551615),
    Printed::Refused(0),
    Printed::Refused(13),
    Printed::Refused(255),
];

fn main(rt: HostRuntime) -> io::Result<()> {
    read_input(&rt)?;
    for bytes in INPUTS {
        input(&rt, bytes)?;
    }
    for line in LINES {
        show_line(&rt, line)?;
    }
    Ok(())
}
