// A set of numbers in a slice of cells, by open addressing: 0 is a free cell. A number that is taken out leaves no gap on another one's path.
#![tactic(auto)]

ghost use Rattle.std.specs.Prelude.{◌≡◌, ◌≢◌, ℕ, suc, ◌<◌, length, IfSome, IfNone};
ghost use Rattle.model.specs.Table.{at as word_at};
ghost use Rattle.model.specs.Cells.{next_cell, cell_for, holds, entered, ahead, closed_up, without};

// How far cell j comes after cell i of so many, going round.
fn ahead(places: usize, i: usize, j: usize) -> usize
    requires i_lt_places { i < places }
    requires j_lt_places { j < places }
    ensures { result ≡ ahead places i j }
{
    if i <= j {
        return j - i;
    }
    places - (i - j)
}

// The cell that holds a number, or the first free one of its path, if there is one. A caller lends cells out of a longer slice: no type of
// theirs says that there are some. The walk is its own: numbers::enter ends after so many tries, and one walk for the two is slower.
pub fn cell_for(cells: &[u64], number: u64) -> Option<usize>
    requires { 0 < length cells.now }
    ensures some { IfSome result (λ at. (at ≡ cell_for cells.now number) × (at < length cells.now)) }
    ensures none { IfNone result (length cells.now ≡ cell_for cells.now number) }
{
    let places = cells.len();
    let mut at = numbers::home(places, number);
    // No `iter::successors` with `find`: its closure would take a contract, and its list a law that it is the path, where the loop has one invariant.
    for _ in 0..places {
        let held = cells[at];
        if held == number || held == 0 {
            return Some(at);
        }
        at = numbers::next_cell(places, at);
    }
    None
}

// Whether the cells hold a number.
pub fn holds(cells: &[u64], number: u64) -> bool
    requires cells_nonzero { 0 < length cells.now }
    requires number_nonzero { 0 < number }
    ensures { result ≡ holds cells.now number }
{
    // No `is_some_and`: tried, and what it answers did not prove.
    match cell_for(cells, number) {
        Some(at) => cells[at] == number,
        None => false,
    }
}

// Enters a number that they do not hold.
pub fn enter(cells: &mut [u64], number: u64)
    requires { 0 < length cells.old }
    ensures { cells.new ≡ entered cells.old number }
{
    if let Some(at) = cell_for(cells, number) {
        cells[at] = number;
    }
}

// The number of cell at, which is taken, moves into the gap if its path leads over it; which cell is the gap then.
fn move_in(cells: &mut [u64], gap: usize, at: usize) -> usize
    requires gap_in_bounds { gap < length cells.old }
    requires at_in_bounds { at < length cells.old }
    requires at_nonzero { word_at cells.old at ≢ 0 }
    ensures by_index { (f : ℕ) → closed_up cells.old gap at (suc f) ≡ closed_up cells.new result (next_cell (length cells.old) at) f }
    ensures upper_bound { result < length cells.old }
{
    let places = cells.len();
    let held = cells[at];
    if ahead(places, gap, at) <= ahead(places, numbers::home(places, held), at) {
        cells[gap] = held;
        return at;
    }
    gap
}

// Cell first is a gap: the numbers after it, up to a free cell, move into it where their path leads over it, each leaving the next gap.
fn close_up(cells: &mut [u64], first: usize)
    requires { first < length cells.old }
    ensures { cells.new ≡ closed_up cells.old first (next_cell (length cells.old) first) (length cells.old) }
{
    let places = cells.len();
    let mut gap = first;
    let mut at = numbers::next_cell(places, first);
    // No `iter::successors` for the places: its closure would take a contract, and its list a law that it is the path, and the gap would stay by hand.
    for _ in 0..places {
        if cells[at] == 0 {
            cells[gap] = 0;
            return;
        }
        gap = move_in(cells, gap, at);
        at = numbers::next_cell(places, at);
    }
    cells[gap] = 0;
}

// Takes a number out, if the cells hold it.
pub fn take_out(cells: &mut [u64], number: u64)
    requires cells_nonzero { 0 < length cells.old }
    requires number_nonzero { 0 < number }
    ensures { cells.new ≡ without cells.old number }
{
    let Some(at) = cell_for(cells, number) else {
        return;
    };
    if cells[at] == number {
        close_up(cells, at);
    }
}
