// Reading and printing an ISRC code (document 01, "Codes").
#![tactic(auto)]

ghost use Rattle.std.specs.Prelude.{◌≡◌, true, map, ◌≤◌, length};
ghost use Rattle.model.specs.Codes.{is_letter_or_digit, is_code, value, number, parse, character, digits, spelling, print, characters_of};
ghost use Rattle.model.specs.Lists.{all};
ghost use Rattle.isrc.specs.Kinds.{test};

use model::{Parsed, Printed, Refusal};

// The kinds of characters that a place of a code takes.
#[derive(Clone, Copy)]
enum Kind {
    Letter,
    LetterOrDigit,
    Digit,
}

fn is_of(kind: Kind, c: u8) -> bool
    ensures { result ≡ test kind c }
{
    match kind {
        Kind::Letter => c.is_ascii_uppercase(),
        Kind::Digit => c.is_ascii_digit(),
        Kind::LetterOrDigit => c.is_ascii_uppercase() || c.is_ascii_digit(),
    }
}

// Whether all of the text is of one kind.
fn all_of(kind: Kind, text: &[u8]) -> bool
    ensures { result ≡ all (test kind) text.now }
{
    text.iter().all(|&c| is_of(kind, c))
}

fn is_code(text: &[u8]) -> bool
    ensures { result ≡ is_code text.now }
{
    text.len() == 12
        && all_of(Kind::Letter, &text[..2])
        && all_of(Kind::LetterOrDigit, &text[2..5])
        && all_of(Kind::Digit, &text[5..])
}

// What a letter or digit counts. `char::to_digit(36)` is no plainer: it takes lower-case letters too, and answers an Option.
fn value_of(c: u8) -> u64
    requires { is_letter_or_digit c ≡ true }
    ensures { result ≡ value c }
{
    match c {
        b'0'..=b'9' => (c - b'0') as u64,
        _ => (c - b'A') as u64 + 10,
    }
}

// Letters and digits read as one number; at most seven of them, so that it fits a word.
// `u64::from_str_radix` is no plainer: it takes a str, and answers a Result of what cannot fail here.
fn number_of(text: &[u8], base: u64) -> u64
    requires { (all is_letter_or_digit text.now ≡ true) × (length text.now ≤ 7) × (base ≤ 36) }
    ensures { result ≡ number base (map value text.now) }
{
    let mut n: u64 = 0;
    for &c in text {
        n = n * base + value_of(c);
    }
    n
}

// The key of a text that is a code.
pub fn parse(text: &[u8]) -> Parsed
    ensures { result ≡ parse text.now }
{
    if !is_code(text) {
        return Err(Refusal::NoCode);
    }
    let first = number_of(&text[..5], 36);
    let last = number_of(&text[5..], 10);
    Ok(first * 10000000 + last)
}

// The character that counts d. `char::from_digit` is no plainer: it gives lower-case letters, and answers an Option.
fn character_of(d: u64) -> u8
    requires { d ≤ 35 }
    ensures { result ≡ character d }
{
    match d as u8 {
        d @ 0..=9 => b'0' + d,
        d => b'A' + (d - 10),
    }
}

// Fills the text with x's last digits, as characters. By hand: the library prints in no base 36, and the bytes of a decimal it promises only of a
// `write!` to a String, which needs a heap.
pub fn write_digits(text: &mut [u8], base: u64, x: u64)
    requires { (1 ≤ base) × (base ≤ 36) }
    ensures { text.new ≡ map character (digits base (length text.old) x) }
{
    let mut left = x;
    // Tried: `iter_mut().rev()`, of whose writes a proof knows nothing.
    for i in (0..text.len()).rev() {
        text[i] = character_of(left % base);
        left /= base;
    }
}

// The only text that can have this key.
fn spelling_of(key: u64) -> [u8; 12]
    ensures { result ≡ spelling key }
{
    let mut text = [0u8; 12];
    write_digits(&mut text[..5], 36, key / 10000000);
    write_digits(&mut text[5..], 10, key);
    text
}

// The code of a key: what it spells, if that reads as the key.
pub fn print(key: u64) -> Printed
    ensures { result ≡ print key }
{
    let text = spelling_of(key);
    match parse(&text) {
        Ok(k) if k == key => Ok(text),
        _ => Err(Refusal::NoCode),
    }
}

// The 12 bytes of what is printed: zero bytes beside a refusal.
pub fn text_of(printed: Printed) -> [u8; 12]
    ensures { result ≡ characters_of printed }
{
    printed.unwrap_or([0; 12])
}
