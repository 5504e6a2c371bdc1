// Runs vectors of document 01, "Codes", through reading and printing, and writes what comes out, a line for each.
#![tactic(auto)]

use std::io;

// A byte as it is, or in hexadecimal if it is no visible character.
fn show_byte(rt: &impl Print, b: u8) -> io::Result<()> {
    if b.is_ascii_graphic() {
        return rt.write_all(&[b]);
    }
    print!(rt; "\\{b:02x}")
}

fn show(rt: &impl Print, text: &[u8]) -> io::Result<()> {
    for &b in text {
        show_byte(rt, b)?;
    }
    Ok(())
}

// The text, and its key or the refusal's number.
fn show_parse(rt: &impl Print, text: &[u8]) -> io::Result<()> {
    print!(rt; "parse ")?;
    show(rt, text)?;
    match isrc::parse(text) {
        Ok(k) => println!(rt; " key {k}"),
        Err(refusal) => println!(rt; " refused {}", u64::from(refusal)),
    }
}

// The key, and its text, or the refusal's number with zeros in the text's place.
fn show_print(rt: &impl Print, key: u64) -> io::Result<()> {
    print!(rt; "print {key}")?;
    let printed = isrc::print(key);
    match printed {
        Ok(_) => print!(rt; " text ")?,
        Err(refusal) => print!(rt; " refused {} ", u64::from(refusal))?,
    }
    show(rt, &isrc::text_of(printed))?;
    println!(rt; "")
}

// Each of these texts.
fn show_parses(rt: &impl Print, texts: &[&[u8]]) -> io::Result<()> {
    for text in texts {
        show_parse(rt, text)?;
    }
    Ok(())
}

// Codes: those worked on paper, the edges, and some in use.
const CODES: [&[u8]; 13] = [
    b"AA0001912345",
    b"ZZZZZ9999999",
    b"ZZZZZ9999998",
    b"AA0000000000",
    b"AA0000000001",
    b"AZZZZ9999999",
    b"BA0000000000",
    b"AAAAA0000000",
    b"AA9990000000",
    b"ZZ0000000000",
    b"GBAYE6700149",
    b"USRC17607839",
    b"QZES52012345",
];

// Texts of other lengths.
const LENGTHS: [&[u8]; 7] = [
    b"",
    b"A",
    b"AA000191234",
    b"AA00019123456",
    b"AA-000-19-12345",
    b"ISRC AA0001912345",
    b"AA0001912345AA0001912345",
];

// Characters of the wrong kind for their place.
const KINDS: [&[u8]; 16] = [
    b"1A0001912345",
    b"A10001912345",
    b"aA0001912345",
    b"Aa0001912345",
    b"aa0001912345",
    b"AAa001912345",
    b"AA00z1912345",
    b"AA000A912345",
    b"AA00019A2345",
    b"AA000191234Z",
    b"AA000191234a",
    b"AA-000191234",
    b"AA0001-12345",
    b" AA000191234",
    b"AA000191234 ",
    b"AA000 912345",
];

// The characters just outside the ranges.
const NEIGHBOURS: [&[u8]; 13] = [
    b"@A0001912345",
    b"A[0001912345",
    b"/A0001912345",
    b"A:0001912345",
    b"AA/001912345",
    b"AA0:01912345",
    b"AA00@1912345",
    b"AA[001912345",
    b"AA0`01912345",
    b"AA000/912345",
    b"AA000191234:",
    b"AA000191234@",
    b"AA00019123[5",
];

// Bytes that are no ASCII characters.
const BYTES: [&[u8]; 9] = [
    b"\x00A0001912345",
    b"A\xff0001912345",
    b"AA\x00001912345",
    b"AA00\xff1912345",
    b"AA000\x00912345",
    b"AA000191234\xff",
    b"\x00\x00\x00\x00\x00\x00\x00\x00\x00\x00\x00\x00",
    b"\xff\xff\xff\xff\xff\xff\xff\xff\xff\xff\xff\xff",
    b"\xc1A0001912345",
];

// Keys of codes and their neighbours, between codes, past the last, and the ends of a word.
const KEYS: [u64; 17] = [
    172627201912345,
    172627200000000,
    172627200000001,
    172627199999999,
    184757759999999,
    184757760000000,
    189423359999999,
    189423360000000,
    604661759999998,
    604661759999999,
    604661760000000,
    777288961912345,
    0,
    1,
    9999999,
    10000000,
    18446744073709551615,
];

fn main(rt: HostRuntime) -> io::Result<()> {
    show_parses(&rt, &CODES)?;
    show_parses(&rt, &LENGTHS)?;
    show_parses(&rt, &KINDS)?;
    show_parses(&rt, &NEIGHBOURS)?;
    show_parses(&rt, &BYTES)?;
    for key in KEYS {
        show_print(&rt, key)?;
    }
    Ok(())
}
