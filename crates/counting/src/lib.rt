// One entry of a recording, counted in the month's report: the entry is decided first, then what it will add is worked out, and only then is it
// settled. An entry that would bring a figure or its cell past 2^64 - 1 is neither counted nor applied. `count_entry` and `apply` are lent
// the five slices that the paper names; `planned`, which only looks, is lent what it looks at.
#![tactic(auto)]

ghost use Rattle.std.specs.Prelude.{◌≡◌, length};
ghost use Rattle.rules.specs.Limits;
ghost use Rattle.rules.specs.Ledger.{Ledger, Sized, ledger_of};
ghost use Rattle.rules.specs.Moments.{tables, lent, any, ◌of_edition◌, ◌seeing_header◌, ◌seeing_escrows◌, ◌seeing_receipts◌};
ghost use Rattle.rules.specs.Numbers.{as_number, decided_as};
ghost use Rattle.rules.specs.Report.{report_of, adds_of};
ghost use Rattle.rules.specs.Settle.{settle};
ghost use Rattle.rules.specs.Sound.{Ready};
ghost use Rattle.rules.specs.Submit.{decided, finish};
ghost use Rattle.settling.specs.Needs.{Settles};
ghost use Rattle.counting.specs.Turn.{Plans, turned, turn};

use rules::limits::{ANSWERS, FIGURES, GRID_ROWS, NAMED, OPERATION_AT};
use rules::refusal::number;
use rules::tables::Tables;
use rules::{Decided, Edition};

// What the record of an entry is decided to be. It is a call of its own, so that the ledger in one piece lies in its memory and not in `count_entry`'s,
// where the compiler, with so many stores in its way, would clear and copy a grid more for each entry.
#[inline(never)]
fn decide(
    edition: Edition,
    header: &[u64],
    wallets: &[u64],
    escrows: &[u64],
    receipts: &[u64],
    journal: &[u64],
    bytes: &[u8],
) -> Decided
    requires { Sized edition × Ready (ledger_of edition header.now wallets.now escrows.now receipts.now journal.now) }
    ensures { decided_as result ≡ decided (ledger_of edition header.now wallets.now escrows.now receipts.now journal.now) bytes.now }
{
    let ledger = Tables {
        edition,
        header,
        wallets,
        escrows,
        receipts,
        journal,
    };
    editions::decide(ledger, bytes)
}

// What a submission that was decided will add to the figures: a refusal adds nothing.
fn planned(
    edition: Edition,
    header: &[u64],
    escrows: &[u64],
    receipts: &[u64],
    decided: Decided,
) -> [u64; FIGURES]
    requires { Plans edition header.now escrows.now receipts.now decided }
    ensures { (K : Ledger) → let L = any K of_edition edition seeing_header header seeing_escrows escrows seeing_receipts receipts in (as_number decided.outcome ≡ 0 → Settles L.entry decided.submission) → result ≡ adds_of L.entry decided.submission (finish (as_number decided.outcome) (settle decided.submission L.entry) L.entry) }
{
    match decided.outcome {
        Ok(()) => adding::adds(edition, header, escrows, receipts, decided.submission),
        Err(_) => [0; FIGURES],
    }
}

// Settles a submission that was decided; a refusal changes nothing.
fn apply(
    edition: Edition,
    header: &mut [u64],
    wallets: &mut [u64],
    escrows: &mut [u64],
    receipts: &mut [u64],
    journal: &mut [u64],
    decided: Decided,
)
    requires { as_number decided.outcome ≡ 0 → Settles (tables edition header wallets escrows receipts journal) decided.submission }
    ensures { let L = lent edition header wallets escrows receipts journal in L.exit ≡ (finish (as_number decided.outcome) (settle decided.submission L.entry) L.entry).left }
{
    if decided.outcome.is_ok() {
        settling::settle(
            edition,
            header,
            wallets,
            escrows,
            receipts,
            journal,
            decided.submission,
        );
    }
}

// One entry: counted and applied; or, if a figure or its cell would pass 2^64 - 1, named, and nothing else is changed.
pub fn count_entry(
    edition: Edition,
    header: &mut [u64],
    wallets: &mut [u64],
    escrows: &mut [u64],
    receipts: &mut [u64],
    journal: &mut [u64],
    bytes: &[u8],
    grid: [[u64; ANSWERS]; GRID_ROWS],
    figures: &mut [u64; FIGURES],
    named: &mut [u64; NAMED],
) -> [[u64; ANSWERS]; GRID_ROWS]
    requires { Sized edition × Ready (tables edition header wallets escrows receipts journal) × (length bytes.now ≡ Limits.RECORD_BYTES) }
    ensures { let L = lent edition header wallets escrows receipts journal in turned (report_of result figures.new named.new) L.exit ≡ turn (report_of grid figures.old named.old) L.entry bytes.now }
{
    let decided = decide(edition, header, wallets, escrows, receipts, journal, bytes);
    let answer = number(decided.outcome);
    let row = grid::row_of(bytes[OPERATION_AT]);
    let column = answer as usize;
    let adds = planned(edition, header, escrows, receipts, decided);
    let before = *figures;
    let count = grid::count(grid, row, column);
    if let Some(past) = grid::passing(before, adds, count) {
        *named = [u64::from(past), row as u64, answer];
        return grid;
    }
    *figures = grid::summed(before, adds);
    apply(
        edition, header, wallets, escrows, receipts, journal, decided,
    );
    grid::raise(grid, row, column)
}
