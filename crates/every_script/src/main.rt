// Every short script, run: prints how many tables they met, and how many of these agreed with the map neither before nor after the action,
// on a line each.
#![tactic(auto)]

ghost use Rattle.std.specs.Prelude.{◌≡◌, [], ◌∷◌, ◌++◌};
ghost use Rattle.model.specs.Printer.{decimal};
ghost use Rattle.model.specs.Scripts.{met_text};
ghost use Rattle.script_bytes.specs.Text.{bytes_of, Room, Puts};

use script_bytes::Text;
use std::io;

// A number in decimal and a line feed.
fn put_line(text: &mut Text<'_>, n: u64)
    requires { Room 21 text.old }
    ensures { Puts (decimal n ++ (10 ∷ [])) text.old text.new }
{
    text.put_number(n);
    text.put_byte(b'\n');
}

// What is printed, in a text with nothing put yet.
fn report(text: &mut Text<'_>)
    requires empty { text.old.at ≡ 0 }
    requires room { Room 42 text.old }
    ensures { bytes_of text.new ≡ met_text }
{
    let met = short_scripts::run_all();
    put_line(text, met.tables);
    put_line(text, met.bad);
}

fn main(rt: HostRuntime) -> io::Result<()> {
    // Room for two lines: memory is fixed, there is no heap.
    let mut out = [0u8; 42];
    let mut text = Text {
        out: &mut out,
        at: 0,
    };
    report(&mut text);
    rt.write_all(text.bytes())
}
