// The month's report so far: the grid of counts by operation and answer, passed and returned by value, and the five figures beside it. Nothing here
// wraps: what would pass 2^64 - 1 is found before anything is raised.
#![tactic(auto)]

ghost use Rattle.std.specs.Prelude.{◌≡◌, [], ◌∷◌, ◌++◌, ℕ, ◌+◌, ◌≤◌, ◌<◌, get_or};
ghost use Rattle.rules.specs.Limits;
ghost use Rattle.grid.specs.Named.{number_of, named_as};
ghost use Rattle.rules.specs.Report.{cell, raised, grid_row, sums, first_past};

use rules::limits::{ANSWERS, FIGURES, GRID_ROWS, LAST_FIGURE, LAST_OPERATION, OLD_DISPUTE};

// What a report names where it stops: the figure that would pass, by its place in the paper's order, or the cell, which comes behind them.
#[derive(Clone, Copy, PartialEq, Eq, Debug)]
pub enum Named {
    Granted = 1,
    Transferred = 2,
    Released = 3,
    Refunded = 4,
    Expired = 5,
    Cell = 6,
}

// The paper's number.
impl From<Named> for u64 {
    ghost from_gives = { λ named number. number ≡ number_of named };

    fn from(named: Named) -> u64 {
        named as u64
    }
}

// The five figures, in their order.
const SUMS: [Named; FIGURES] = [
    Named::Granted,
    Named::Transferred,
    Named::Released,
    Named::Refunded,
    Named::Expired,
];

// The row of an operation byte: its own, or row 0 where it is no operation. Operation 8 is none today.
pub fn row_of(op: u8) -> usize
    ensures { result ≡ grid_row op }
{
    // not by `Operation::try_from`, which names what this only bounds
    if (op <= LAST_OPERATION) & (op != OLD_DISPUTE) {
        usize::from(op)
    } else {
        0
    }
}

// The count in a cell.
pub fn count(grid: [[u64; ANSWERS]; GRID_ROWS], row: usize, column: usize) -> u64
    requires { (row < Limits.GRID_ROWS) × (column < Limits.ANSWERS) }
    ensures { result ≡ cell grid row column }
{
    grid[row][column]
}

// The grid with one more in a cell.
pub fn raise(
    grid: [[u64; ANSWERS]; GRID_ROWS],
    row: usize,
    column: usize,
) -> [[u64; ANSWERS]; GRID_ROWS]
    requires { (row < Limits.GRID_ROWS) × (column < Limits.ANSWERS) × (cell grid row column + 1 ≤ Limits.LAST_FIGURE) }
    ensures { result ≡ raised grid row column }
{
    let mut next = grid;
    next[row][column] += 1;
    next
}

// The first figure that would pass 2^64 - 1 with what is added, or else the cell with one more.
pub fn passing(figures: [u64; FIGURES], adds: [u64; FIGURES], count: u64) -> Option<Named>
    ensures { named_as result ≡ first_past 1 (sums figures adds ++ ((count + 1) ∷ [])) }
{
    for (k, named) in SUMS.iter().enumerate() {
        if payments::sums::exceeds(figures[k], adds[k], LAST_FIGURE) {
            return Some(*named);
        }
    }
    if payments::sums::exceeds(count, 1, LAST_FIGURE) {
        return Some(Named::Cell);
    }
    None
}

// The figures with what is added.
pub fn summed(figures: [u64; FIGURES], adds: [u64; FIGURES]) -> [u64; FIGURES]
    requires { (k : ℕ) → k < Limits.FIGURES → get_or figures k 0 + get_or adds k 0 ≤ Limits.LAST_FIGURE }
    ensures { result ≡ sums figures adds }
{
    let mut sums = figures;
    for k in 0..FIGURES {
        sums[k] += adds[k];
    }
    sums
}
