// The month's report, over the five slices that the paper names: a recording is replayed on a fresh ledger, one cell of the grid is raised for each
// entry read, and what the entry adds is added to the figures. What holds for every edition is written and proved once; the public call is that of
// the first, and asks nothing. What is counted is the core's own answer. An entry that would bring a figure or its cell past 2^64 - 1 is neither counted nor
// applied: so each entry is decided first, then what it will add is worked out, and only then is it settled. Grid, figures and what is named stand
// beside each other: the paper names the grid as an array of arrays by value, and C lends the other two.
#![tactic(auto)]

ghost use Rattle.std.specs.Prelude.{◌≡◌, get_or};
ghost use Rattle.rules.specs.Limits;
ghost use Rattle.rules.specs.Ledger.{Sized, first_edition};
ghost use Rattle.rules.specs.Moments.{tables, lent};
ghost use Rattle.rules.specs.Report.{report_of, telling, telling_of, report_on, report};
ghost use Rattle.rules.specs.Sound.{Ready};
ghost use Rattle.rules.specs.Submit.{submit};

use rules::limits::{ANSWERS, ENTRY_BYTES, FIGURES, GRID_ROWS, NAMED, NAMED_FIGURE, RECORD_BYTES};
use rules::refusal::Refusal;
use rules::tables::Tables;
use rules::{Edition, FIRST, Told};

// Every whole entry in turn, on the tables as they are, until a figure is named; what is told is answer 0 and how many entries were read.
fn report_on(
    edition: Edition,
    header: &mut [u64],
    wallets: &mut [u64],
    escrows: &mut [u64],
    receipts: &mut [u64],
    journal: &mut [u64],
    recording: &[u8],
    grid: [[u64; ANSWERS]; GRID_ROWS],
    figures: &mut [u64; FIGURES],
    named: &mut [u64; NAMED],
) -> ([[u64; ANSWERS]; GRID_ROWS], Told)
    requires { Sized edition × Ready (tables edition header wallets escrows receipts journal) × (get_or named.old Limits.NAMED_FIGURE 0 ≡ 0) }
    ensures { let L = lent edition header wallets escrows receipts journal in telling result.1.number result.1.entries (report_of result.0 figures.new named.new) L.exit ≡ telling_of (report_on submit (report_of grid figures.old named.old) L.entry recording.now) }
{
    let entries = recording.len() / ENTRY_BYTES;
    let mut counts = grid;
    // By number, as the definitions count entries: of the pieces of `chunks_exact` it is not proved where in the recording each lies.
    for k in 0..entries {
        let at = k * ENTRY_BYTES;
        let end = at + RECORD_BYTES;
        // Rattle proves no call whose array is stored in a local that exists already, so its result gets a name of its own.
        let more = counting::count_entry(
            edition,
            header,
            wallets,
            escrows,
            receipts,
            journal,
            &recording[at..end],
            counts,
            figures,
            named,
        );
        counts = more;
        if named[NAMED_FIGURE] != 0 {
            // The report stopped before this entry.
            return (
                counts,
                Told {
                    number: 0,
                    entries: k as u64,
                },
            );
        }
    }
    (
        counts,
        Told {
            number: 0,
            entries: entries as u64,
        },
    )
}

// On the tables started afresh. A report that has named a figure has stopped: it and the tables stay as they are.
fn report_afresh(
    edition: Edition,
    header: &mut [u64],
    wallets: &mut [u64],
    escrows: &mut [u64],
    receipts: &mut [u64],
    journal: &mut [u64],
    recording: &[u8],
    grid: [[u64; ANSWERS]; GRID_ROWS],
    figures: &mut [u64; FIGURES],
    named: &mut [u64; NAMED],
) -> ([[u64; ANSWERS]; GRID_ROWS], Told)
    requires { Sized edition }
    ensures { let L = lent edition header wallets escrows receipts journal in telling result.1.number result.1.entries (report_of result.0 figures.new named.new) L.exit ≡ report submit (report_of grid figures.old named.old) L.entry recording.now }
{
    let ledger = Tables {
        edition,
        header,
        wallets,
        escrows,
        receipts,
        journal,
    };
    if !editions::lengths_right(ledger) {
        return (
            grid,
            Told {
                number: u64::from(Refusal::BadTable),
                entries: 0,
            },
        );
    }
    if named[NAMED_FIGURE] != 0 {
        return (
            grid,
            Told {
                number: 0,
                entries: 0,
            },
        );
    }
    let _ = editions::fresh(edition, header, wallets, escrows, receipts, journal);
    report_on(
        edition, header, wallets, escrows, receipts, journal, recording, grid, figures, named,
    )
}

// Adds a recording to a report: the grid by value, the five figures and what is named beside it, on the lent tables, started afresh. What is told is
// the answer, 1 for tables of a wrong length, and how many entries were read.
pub fn report(
    header: &mut [u64],
    wallets: &mut [u64],
    escrows: &mut [u64],
    receipts: &mut [u64],
    journal: &mut [u64],
    recording: &[u8],
    grid: [[u64; ANSWERS]; GRID_ROWS],
    figures: &mut [u64; FIGURES],
    named: &mut [u64; NAMED],
) -> ([[u64; ANSWERS]; GRID_ROWS], Told)
    ensures { let L = lent first_edition header wallets escrows receipts journal in telling result.1.number result.1.entries (report_of result.0 figures.new named.new) L.exit ≡ report submit (report_of grid figures.old named.old) L.entry recording.now }
{
    report_afresh(
        FIRST, header, wallets, escrows, receipts, journal, recording, grid, figures, named,
    )
}
