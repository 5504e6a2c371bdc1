// A set of numbers in a slice of cells, by open addressing: 0 is a free cell. A cell is a word and no Option, for gather lends cells out of the
// words that C lends.
#![tactic(auto)]

ghost use Rattle.std.specs.Prelude.{◌≡◌, ◌<◌, length};
ghost use Rattle.model.specs.Cells.{home_of};
ghost use Rattle.numbers.specs.Cells.{mixed, next_cell, outcome, entered};

// Numbers are scattered below this prime.
pub const SPREAD: u64 = 4294967291;

// Cells, and tries, for a set that is to notice soon that it is crowded.
pub const CELLS: usize = 16384;

pub const TRIES: usize = 128;

// Why a number is not entered: it was met before, or all cells of its path are taken. 0 is never entered, and finds them taken.
#[derive(Clone, Copy, PartialEq, Eq)]
pub enum Stop {
    Known,
    Full,
}

pub type Entry = Result<(), Stop>;

// A number scattered, so that numbers that follow each other, or in small equal steps, crowd no cells. Those that leave one rest by
// 2,147,483,647 still do.
pub fn mixed(number: u64) -> u64
    ensures { result ≡ mixed number }
{
    (number % 2147483647) * 2246822519 % SPREAD
}

// The cell in which a number's path begins, of so many.
pub fn home(places: usize, number: u64) -> usize
    requires { 0 < places }
    ensures value { result ≡ home_of places number }
    ensures upper_bound { result < places }
{
    (mixed(number) % places as u64) as usize
}

// The cell after cell at of so many; the first comes after the last.
pub fn next_cell(places: usize, at: usize) -> usize
    requires { at < places }
    ensures value { result ≡ next_cell places at }
    ensures upper_bound { result < places }
{
    let next = at + 1;
    if next == places {
        return 0;
    }
    next
}

// Enters a number in the first free cell of its path, unless it is met before that. The path has so many cells. A caller lends cells out of
// a longer slice: no type of theirs says that there are some. The walk is its own: that of cells::cell_for does not report whether the number
// was met, and to ask the cell again slows a check of pairs, as measured.
pub fn enter(cells: &mut [u64], tries: usize, number: u64) -> Entry
    requires { 0 < length cells.old }
    ensures { outcome result cells.new ≡ entered tries cells.old number }
{
    if number == 0 {
        return Err(Stop::Full);
    }
    let places = cells.len();
    let mut at = home(places, number);
    for _ in 0..tries {
        let held = cells[at];
        if held == number {
            return Err(Stop::Known);
        }
        if held == 0 {
            cells[at] = number;
            return Ok(());
        }
        at = next_cell(places, at);
    }
    Err(Stop::Full)
}
