// Entry points for a host in Rust or C. Each only passes on to the core's own call and repeats its contract, so nothing new is decided here.
// A slice is a pointer, then a count of elements. An enum, an `Option` or a `Result` does not cross `extern "C"`: here every answer is in the paper's
// numbers.
#![tactic(auto)]

ghost use Rattle.std.specs.Prelude.{◌≡◌};
ghost use Rattle.rules.specs.Convert.{converted};
ghost use Rattle.rules.specs.Ledger.{first_edition, outcome, fresh};
ghost use Rattle.rules.specs.Lookup.{escrow_place, receipt_place, wallet_state};
ghost use Rattle.rules.specs.Moments.{lent};
ghost use Rattle.rules.specs.Record.{Written, read_of, write_of};
ghost use Rattle.rules.specs.Replay.{gone, told, replay};
ghost use Rattle.rules.specs.Report.{report_of, telling, report};
ghost use Rattle.rules.specs.Status.{status_of};
ghost use Rattle.rules.specs.Submit.{submit};
ghost use Rattle.rules.specs.Wallets.{standing_of};

use rules::limits::{ANSWERS, FIGURES, GRID_ROWS, NAMED};
use rules::refusal::number;
use rules::{Answer, EscrowNumber, Read, ReceiptNumber, Standing, Submission, Told, Verdict};

// A submission over the five lent tables: its answer, and the tables as document 01 lays them down; a refusal changes nothing.
#[unsafe(no_mangle)]
pub extern "C" fn milebeacon_submit(
    header: &mut [u64],
    wallets: &mut [u64],
    escrows: &mut [u64],
    receipts: &mut [u64],
    journal: &mut [u64],
    bytes: &[u8],
) -> Answer
    ensures { let L = lent first_edition header wallets escrows receipts journal in outcome result.number result.word L.exit ≡ submit L.entry bytes.now }
{
    Answer::from(ledger::submit(header, wallets, escrows, receipts, journal, bytes))
}

// Starts afresh: 0, or 1 for a wrong length.
#[unsafe(no_mangle)]
pub extern "C" fn milebeacon_fresh(
    header: &mut [u64],
    wallets: &mut [u64],
    escrows: &mut [u64],
    receipts: &mut [u64],
    journal: &mut [u64],
) -> u64
    ensures { let L = lent first_edition header wallets escrows receipts journal in outcome result 0 L.exit ≡ fresh L.entry }
{
    number(ledger::fresh(header, wallets, escrows, receipts, journal))
}

// Reads a record: 0 and its fields, or 3 and zeros.
#[unsafe(no_mangle)]
pub extern "C" fn milebeacon_read(bytes: &[u8]) -> Read
    ensures { result ≡ read_of bytes.now }
{
    Read::from(record::read_record(bytes))
}

// Writes a record: 0 and its bytes, or 3 and the output as it was.
#[unsafe(no_mangle)]
pub extern "C" fn milebeacon_write(submission: Submission, out: &mut [u8]) -> u64
    ensures { ◌≡◌ {A = Written} (record { number = result; out = out.new }) (write_of submission out.old) }
{
    number(record::write_record(submission, out))
}

// The status of an answer.
#[unsafe(no_mangle)]
pub extern "C" fn milebeacon_status(number: u64) -> u64
    ensures { result ≡ status_of number }
{
    rules::status(number)
}

// The wallet of an id, in numbers: whether it is missing, live or closed, and the number of its row, or 0.
#[unsafe(no_mangle)]
pub extern "C" fn milebeacon_wallet_row(header: &[u64], wallets: &[u64], id: u64) -> Standing
    ensures { result ≡ standing_of (wallet_state first_edition header.now wallets.now id) }
{
    let state = ledger::lookups::wallet_row(header, wallets, id);
    Standing::from(state)
}

// Where an escrow's row starts in its table, in words, or the table's length: a part of a slice cannot be returned across this boundary.
#[unsafe(no_mangle)]
pub extern "C" fn milebeacon_escrow_place(
    header: &[u64],
    escrows: &[u64],
    number: EscrowNumber,
) -> usize
    ensures { result ≡ escrow_place first_edition header.now escrows.now number.0 }
{
    ledger::lookups::escrow_place(header, escrows, number)
}

// The same of a receipt.
#[unsafe(no_mangle)]
pub extern "C" fn milebeacon_receipt_place(
    header: &[u64],
    receipts: &[u64],
    number: ReceiptNumber,
) -> usize
    ensures { result ≡ receipt_place first_edition header.now receipts.now number.0 }
{
    ledger::lookups::receipt_place(header, receipts, number)
}

// A replay of a recording on the lent tables, started afresh: what it found, in numbers, and the tables as after the last entry replayed.
#[unsafe(no_mangle)]
pub extern "C" fn milebeacon_replay(
    header: &mut [u64],
    wallets: &mut [u64],
    escrows: &mut [u64],
    receipts: &mut [u64],
    journal: &mut [u64],
    recording: &[u8],
) -> Verdict
    ensures { let L = lent first_edition header wallets escrows receipts journal in gone result L.exit ≡ told (replay submit L.entry recording.now) }
{
    let found = replay::replay(header, wallets, escrows, receipts, journal, recording);
    Verdict::from(found)
}

// Adds a recording to a month's report, on the lent tables, started afresh: the answer and how many entries were read, the grid, the figures and what is
// named as the report then has them, and the tables as after the last entry read. An array cannot cross this boundary by value: the grid is lent.
#[unsafe(no_mangle)]
pub extern "C" fn milebeacon_report(
    header: &mut [u64],
    wallets: &mut [u64],
    escrows: &mut [u64],
    receipts: &mut [u64],
    journal: &mut [u64],
    recording: &[u8],
    grid: &mut [[u64; ANSWERS]; GRID_ROWS],
    figures: &mut [u64; FIGURES],
    named: &mut [u64; NAMED],
) -> Told
    ensures { let L = lent first_edition header wallets escrows receipts journal in telling result.number result.entries (report_of grid.new figures.new named.new) L.exit ≡ report submit (report_of grid.old figures.old named.old) L.entry recording.now }
{
    let (after, told) = report::report(
        header, wallets, escrows, receipts, journal, recording, *grid, figures, named,
    );
    *grid = after;
    told
}

// Turns a recording of the old form into today's, in place. It takes any bytes and refuses nothing, so it has no answer.
#[unsafe(no_mangle)]
pub extern "C" fn milebeacon_convert(recording: &mut [u8])
    ensures { recording.new ≡ converted recording.old }
{
    convert::convert(recording)
}
