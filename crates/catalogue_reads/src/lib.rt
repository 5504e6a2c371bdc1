// The C entry points, on numbers and slices: include/catalogue.h has their prototypes. Here those of codes, making, searching, checking, listing
// and carry-out; catalogue_writes, catalogue_sentinels, catalogue_quick and catalogue_tools have the others. One archive, libcatalogue.a, has
// them all (shell/build-library).
// C calls each by its own name: bodies that differ in the inner call alone stay apart.
// C hands over each number, slice and lent word by itself: those that calls take together stay parameters.
#![tactic(auto)]

ghost use Rattle.std.specs.Prelude.{◌≡◌};
ghost use Rattle.model.specs.Results.{answer_number};
ghost use Rattle.model.specs.Codes.{parse, print, characters_of, key_or};
ghost use Rattle.model.specs.Table.{making, made};
ghost use Rattle.model.specs.Orders.{carry_out, carried_out};
ghost use Rattle.model.specs.Search.{search};
ghost use Rattle.model.specs.Answers.{version, Looked, Showed};
ghost use Rattle.model.specs.Statistics.{checking, report_out};
ghost use Rattle.model.specs.Listing.{list, list_out};

// The version of the calls' shapes; the header's CATALOGUE_VERSION is the same.
#[unsafe(no_mangle)]
pub extern "C" fn catalogue_version() -> u64
    ensures { result ≡ version }
{
    16
}

// 0 and the code's key, or 1.
#[unsafe(no_mangle)]
pub extern "C" fn catalogue_parse(text: &[u8], key: &mut u64) -> u64
    ensures value { result ≡ answer_number (parse text.now) }
    ensures key_after { key.new ≡ key_or (parse text.now) key.old }
{
    answers::put(isrc::parse(text), key)
}

// 0 and the key's code, or 1 and 12 zero bytes.
#[unsafe(no_mangle)]
pub extern "C" fn catalogue_print(key: u64, text: &mut [u8; 12]) -> u64
    ensures value { result ≡ answer_number (print key) }
    ensures text_after { text.new ≡ characters_of (print key) }
{
    let code = isrc::print(key);
    *text = isrc::text_of(code);
    answers::number_of(code)
}

// 0, or 2 or 17.
#[unsafe(no_mangle)]
pub extern "C" fn catalogue_make(table: &mut [u64], collections: u64) -> u64
    ensures value { result ≡ answer_number (making collections table.old) }
    ensures table_after { table.new ≡ made collections table.old }
{
    answers::number_of(node::make(table, collections))
}

// 0, the recording and the class if the collection has the key; 255 if it is absent, with 1 and the next key up, or with 0 if there is none;
// else 2, 17 or 3.
#[unsafe(no_mangle)]
pub extern "C" fn catalogue_search(
    table: &[u64],
    collection: u64,
    key: u64,
    recording: &mut u64,
    access: &mut u64,
    next: &mut u64,
    higher: &mut u64,
) -> u64
    ensures { Looked (search collection table.now key) result recording.old recording.new
        access.old access.new next.old next.new higher.old higher.new }
{
    let answer = search::search(table, collection, key);
    answers::put_answer(answer, recording, access, next, higher)
}

// 0 and the report of a sound table, or 2 or 4.
#[unsafe(no_mangle)]
pub extern "C" fn catalogue_check(table: &[u64], report: &mut [u64; 16]) -> u64
    ensures value { result ≡ answer_number (checking table.now) }
    ensures report_after { report.new ≡ report_out table.now report.old }
{
    answers::number_of(statistics::check(table, report))
}

// 0, the pairs written and 1 or 0 for more left, or 2, 17 or 4.
#[unsafe(no_mangle)]
pub extern "C" fn catalogue_list(
    table: &[u64],
    collection: u64,
    low: u64,
    high: u64,
    out: &mut [u64],
    pairs: &mut u64,
    more: &mut u64,
) -> u64
    ensures showed { Showed (list collection table.now low high out.old) result
        pairs.old pairs.new more.old more.new }
    ensures out_after { out.new ≡ list_out collection table.now low high out.old }
{
    let listed = listing::list(table, collection, low, high, out);
    answers::put_page(listed, pairs, more)
}

// 0, or 2 or 13.
#[unsafe(no_mangle)]
pub extern "C" fn catalogue_carry_out(table: &mut [u64], orders: &[u64], c: u64) -> u64
    ensures value { result ≡ answer_number (carry_out c orders.now table.old) }
    ensures table_after { table.new ≡ carried_out c orders.now table.old }
{
    answers::number_of(carry::carry_out(table, orders, c))
}
