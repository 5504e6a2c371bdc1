// Every short script: a number's script, a script's number, and all of them run.
#![tactic(auto)]

ghost use Rattle.std.specs.Prelude.{◌≡◌, true, ◌+◌, ◌≤◌, ◌<◌, leb, length};
ghost use Rattle.model.specs.Table.{at};
ghost use Rattle.model.specs.Search.{first_above, lookup, search};
ghost use Rattle.model.specs.Reached.{map_of};
ghost use Rattle.model.specs.SoundTest.{all, sound};
ghost use Rattle.model.specs.Orders.{carried_out};
ghost use Rattle.model.specs.Refusals.{has_key, written, table_after, list_after};
ghost use Rattle.model.specs.Scripts.{call_of, rank, script_of, script_words, script_answer, script_out, actions_in, form_script, script_number};
ghost use Rattle.model.specs.Scripts.{same_answer, agrees, tables_met, bad_met};
ghost use Rattle.short_scripts.specs.Held.{pairs, changed};
ghost use Rattle.short_scripts.specs.Met.{is_bad, bad_among, Acts, Runs};

use model::{Answer, Outcome, Ranked, Refusal, Written};

// Which of the keys 1, 2 and 3, each by its place, the map has, each with recording 10 plus the key and class 0.
type Held = [bool; 3];

// What was met: tables, and of these the bad ones, which agreed with the map neither before nor after the action.
#[derive(Clone, Copy)]
pub struct Met {
    pub tables: u64,
    pub bad: u64,
}

// An action of a script, with its key.
#[derive(Clone, Copy)]
enum Action {
    Insert(u64),
    Delete(u64),
}

impl From<u64> for Action {
    ghost use Rattle.short_scripts.specs.Actions.{action_of};

    ghost from_gives = { λ n a. a ≡ action_of n };

    // Three insertions and then three deletions, of keys 1, 2 and 3. Any other number is that of a deletion, as in `call_of` of the model.
    fn from(number: u64) -> Action {
        let key = number % 3 + 1;
        match number {
            0..=2 => Action::Insert(key),
            _ => Action::Delete(key),
        }
    }
}

// ---- a number's script

// How many actions the script with this number has.
fn length_of(number: u64) -> usize
    requires { number < 1555 }
    ensures { result ≡ length (script_of number) }
{
    match number {
        0 => 0,
        1..=6 => 1,
        7..=42 => 2,
        43..=258 => 3,
        _ => 4,
    }
}

// The script with this number, its actions from the last one on.
fn words_of(number: u64) -> [u64; 5]
    requires { number < 1555 }
    ensures { result ≡ script_words (script_of number) }
{
    let count = length_of(number);
    let mut words = [0u64; 5];
    words[0] = count as u64;
    let mut n = number;
    // By place, as in `isrc::write_digits`, for which an adapter of `iter_mut` was tried: of its writes a proof knows nothing.
    for i in (0..count).rev() {
        words[i + 1] = (n - 1) % 6;
        n = (n - 1) / 6;
    }
    words
}

// The script with this number, or 22. The words are lent, as in `catalogue_script`: a `Result` of them is no plainer, as its caller would
// match it and copy them.
pub fn script_of(number: u64, out: &mut [u64; 5]) -> Outcome
    ensures value { result ≡ script_answer number }
    ensures out_after { out.new ≡ script_out number out.old }
{
    if 1554 < number {
        return Err(Refusal::NoScript);
    }
    *out = words_of(number);
    Ok(())
}

// ---- a script's number

// Whether no word is above a number.
fn none_above(words: &[u64], most: u64) -> bool
    ensures { result ≡ all (λ w. leb w most) words.now }
{
    words.iter().all(|&w| w <= most)
}

// At most four actions, each one of the six, and 0 past them.
fn forms(words: [u64; 5]) -> bool
    ensures { result ≡ form_script words }
{
    let count = words[0] as usize;
    count <= 4 && none_above(actions_in(&words), 5) && none_above(&words[count + 1..], 0)
}

// A script's actions.
fn actions_in(words: &[u64; 5]) -> &[u64]
    requires { at words.now 0 ≤ 4 }
    ensures { result.now ≡ actions_in words.now }
{
    let count = words[0] as usize;
    &words[1..=count]
}

// The number that a script's actions make.
fn rank(words: [u64; 5]) -> u64
    requires { form_script words ≡ true }
    ensures { result ≡ rank (actions_in words) }
{
    let actions = actions_in(&words);
    let mut n = 0;
    for &action in actions {
        n = 6 * n + action + 1;
    }
    n
}

// The number of a script, or 23.
pub fn number_of(words: [u64; 5]) -> Ranked
    ensures { result ≡ script_number words }
{
    if !forms(words) {
        return Err(Refusal::BadScript);
    }
    Ok(rank(words))
}

// ---- the map, and a table that is searched

fn holds(held: Held, key: u64) -> bool
    ensures { result ≡ has_key key (pairs held) }
{
    (1..=3).contains(&key) && held[(key - 1) as usize]
}

fn next_of(held: Held, key: u64) -> Option<u64>
    ensures { result ≡ first_above key (pairs held) }
{
    (1..4).find(|&k| key < k && holds(held, k))
}

// What a search for the key is to answer.
fn expected(held: Held, key: u64) -> Answer
    ensures { result ≡ lookup key (pairs held) }
{
    if holds(held, key) {
        return Answer::Found {
            recording: 10 + key,
            access: 0,
        };
    }
    Answer::Absent(next_of(held, key))
}

// Whether a search for the key answers as the map does, which never refuses.
fn answers(table: &[u64], held: Held, key: u64) -> bool
    ensures { result ≡ same_answer (search 1 table.now key) (lookup key (pairs held)) }
{
    match search::search(table, 1, key) {
        // Tried: `==` alone. No proof was found that it is `same_answer`, for which the map's answer may be no refusal.
        Answer::Refused(_) => false,
        found => found == expected(held, key),
    }
}

// Whether the table, searched for the three keys, agrees with the map.
fn agrees(table: &[u64], held: Held) -> bool
    ensures { result ≡ agrees (pairs held) table.now }
{
    (1..4).all(|key| answers(table, held, key))
}

// ---- what an action meets

// The table as carry-out leaves it after c orders.
fn cut_at(table: [u64; 136], list: &[u64], c: u64) -> [u64; 136]
    ensures { result ≡ carried_out c list.now table }
{
    let mut memory = table;
    let _ = carry::carry_out(&mut memory, list, c);
    memory
}

fn is_bad(table: [u64; 136], old: Held, new: Held) -> bool
    ensures { result ≡ is_bad (pairs old) (pairs new) table }
{
    !agrees(&table, old) && !agrees(&table, new)
}

// How many tables are bad, after every count of orders from 0 to this one.
fn count_bad(table: [u64; 136], list: &[u64], count: u64, old: Held, new: Held) -> u64
    requires { count ≤ 1121 }
    ensures { result ≡ bad_among (pairs old) (pairs new) table list.now 0 (count + 1) }
{
    // Tried: `0..=count`. std has no law for what list an inclusive range yields.
    (0..count + 1)
        .filter(|&c| is_bad(cut_at(table, list, c), old, new))
        .count() as u64
}

// The action's call. By number, as `call_of` of the model is: an `Action` in its place takes a definition more, here and in `change`.
fn call(table: &mut [u64; 136], list: &mut [u64; 2560], action: u64) -> Written
    ensures value { result ≡ written (call_of action) 2560 0 table.old }
    ensures table_after { table.new ≡ table_after (call_of action) 2560 0 table.old }
    ensures list_after { list.new ≡ list_after (call_of action) list.old 0 table.old }
{
    match Action::from(action) {
        Action::Insert(key) => insert::insert(table, list, 0, 1, key, 10 + key, 0),
        Action::Delete(key) => delete::delete(table, list, 0, 1, key),
    }
}

// The map after an accepted action.
fn change(held: Held, action: u64) -> Held
    ensures { result ≡ changed held action }
{
    let mut next = held;
    match Action::from(action) {
        Action::Insert(key) => next[(key - 1) as usize] = true,
        Action::Delete(key) => next[(key - 1) as usize] = false,
    }
    next
}

// One action: its call on the working copy, and every cut of its orders on the table as it was.
fn act(table: &mut [u64; 136], list: &mut [u64; 2560], held: &mut Held, action: u64) -> Met
    requires table_value { sound table.old ≡ true }
    requires table_value_2 { map_of 1 table.old ≡ pairs held.old }
    ensures acts { Acts action table.old result held.new }
    ensures table_after { table.new ≡ table_after (call_of action) 2560 0 table.old }
{
    let before = *table;
    let answer = call(table, list, action);
    match answer {
        Ok(counts) => {
            let count = counts.stores + counts.flushes;
            let old = *held;
            let next = change(old, action);
            let bad = count_bad(before, list, count, old, next);
            *held = next;
            Met {
                tables: count + 1,
                bad,
            }
        }
        // `Met::default()` is no plainer: it would be called once, and hides that both numbers are 0.
        Err(_) => Met { tables: 0, bad: 0 },
    }
}

// ---- scripts

// One script on an empty table.
fn run(words: [u64; 5], list: &mut [u64; 2560]) -> Met
    requires { form_script words ≡ true }
    ensures { Runs (actions_in words) result }
{
    let mut table = node::first_table();
    let mut held = [false; 3];
    let mut tables = 0;
    let mut bad = 0;
    let actions = actions_in(&words);
    // Two sums, here and in `run_all`: an `impl Add` is no plainer, as it takes a definition of the sum and one of what fits.
    for &action in actions {
        let met = act(&mut table, list, &mut held, action);
        tables += met.tables;
        bad += met.bad;
    }
    Met { tables, bad }
}

// Every script.
pub fn run_all() -> Met
    ensures tables_value { result.tables ≡ tables_met }
    ensures bad_value { result.bad ≡ bad_met }
{
    // The order list: memory is fixed, there is no heap.
    let mut list = [0u64; 2560];
    let mut tables = 0;
    let mut bad = 0;
    for number in 0..1555 {
        let met = run(words_of(number), &mut list);
        tables += met.tables;
        bad += met.bad;
    }
    Met { tables, bad }
}
