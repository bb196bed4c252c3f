// What a submission that nothing refuses will add to the five figures of the month's report, worked out before it is settled: the tables
// are read and not changed. An operation adds what its own words and rows say; a sweep is laid out receipt by receipt and escrow by escrow.
// Each function is lent only the tables that it looks at: so its contract says that no other decides what is added.
#![tactic(auto)]

ghost use Rattle.std.specs.Prelude.{◌≡◌, ℕ, ◌-◌, ◌<◌, ◌≤◌, ◌^◌, get_or};
ghost use Rattle.rules.specs.Limits;
ghost use Rattle.rules.specs.Table.{loop};
ghost use Rattle.rules.specs.Ledger.{Ledger, outcome};
ghost use Rattle.rules.specs.Moments.{any, ◌of_edition◌, ◌seeing_header◌, ◌seeing_escrows◌, ◌seeing_receipts◌};
ghost use Rattle.rules.specs.Settle.{Sweep, sweep_escrow, swept_receipts, swept, settle};
ghost use Rattle.rules.specs.Report.{adds_of};
ghost use Rattle.rules.proofs.Good.{Good};
ghost use Rattle.rules.proofs.Adds.{figures};
ghost use Rattle.rows.specs.Numbered.{Names};
ghost use Rattle.settling.specs.Needs.{Settles};
ghost use Rattle.adding.specs.Needs.{Adds, Links, Sweeps, Expires};
ghost use Rattle.adding.specs.Turns.{freed, freed_now, marked_now, closed_turn, closed_marks, expired_turn, Unmarked, Ended, Receipted};

use rows::numbered;
use rules::limits::{
    ACCEPTANCE_DEADLINE, ACCEPTS, AUTO_ACCEPT, ESCROW_AMOUNT, ESCROW_DEADLINE, ESCROW_STATE,
    ESCROWS, FIGURES, IS_OPEN, MAX_ESCROWS, PENDING, RECEIPT_STATE, RECEIPTS,
};
use rules::operation::Operation;
use rules::{Edition, EscrowNumber, ReceiptNumber, Submission};

// How many rows are closed, and the credits of the escrows that end with them.
#[derive(Clone, Copy)]
struct Closed {
    rows: u64,
    amount: u64,
}

// What a receipt releases where it is accepted: the amount of its escrow, if that is open and not stale.
fn accepted(
    edition: Edition,
    escrows: &[u64],
    receipts: &[u64],
    number: ReceiptNumber,
    time: u64,
) -> u64
    requires { Names number.0 × Links edition receipts.now (number.0 - 1) }
    ensures { result ≡ freed edition escrows.now receipts.now time (number.0 - 1) }
{
    let Some(link) = moves::link(receipts, number) else {
        return 0;
    };
    let amount = numbered::escrow(edition, escrows, link, ESCROW_AMOUNT);
    let releasable = moves::is_releasable(edition, escrows, link, time);
    rows::choose(releasable, amount, 0)
}

// What a due receipt of a sweep releases: an escrow once, which is marked.
fn auto_accepted(
    edition: Edition,
    escrows: &[u64],
    receipts: &[u64],
    marks: &mut [bool; MAX_ESCROWS],
    number: ReceiptNumber,
    time: u64,
) -> u64
    requires { Names number.0 × Links edition receipts.now (number.0 - 1) }
    ensures { (result ≡ freed_now edition escrows.now receipts.now marks.old time (number.0 - 1)) × (marks.new ≡ marked_now edition escrows.now receipts.now marks.old time (number.0 - 1)) }
{
    let auto = numbered::receipt(receipts, number, AUTO_ACCEPT);
    if auto != 1 {
        return 0;
    }
    let Some(link) = moves::link(receipts, number) else {
        return 0;
    };
    let row = (link.0 - 1) as usize;
    if marks[row] {
        return 0;
    }
    if moves::is_releasable(edition, escrows, link, time) {
        marks[row] = true;
        return numbered::escrow(edition, escrows, link, ESCROW_AMOUNT);
    }
    0
}

// One receipt of a sweep that may still close a row: what it releases, if it is due. `escrow_turn` is the like of an escrow:
// it sums what expires, and has no marks.
fn receipt_turn(
    edition: Edition,
    escrows: &[u64],
    receipts: &[u64],
    marks: &mut [bool; MAX_ESCROWS],
    number: ReceiptNumber,
    time: u64,
) -> Option<u64>
    requires { Names number.0 × Links edition receipts.now (number.0 - 1) }
    ensures { (result ≡ closed_turn edition escrows.now receipts.now marks.old time (number.0 - 1)) × (marks.new ≡ closed_marks edition escrows.now receipts.now marks.old time (number.0 - 1)) }
{
    let state = numbered::receipt(receipts, number, RECEIPT_STATE);
    let deadline = numbered::receipt(receipts, number, ACCEPTANCE_DEADLINE);
    if sweeping::is_due(state, PENDING, deadline, time) {
        Some(auto_accepted(edition, escrows, receipts, marks, number, time))
    } else {
        None
    }
}

// All receipts in row order, while there is room: how many are closed, and what they release.
fn receipt_turns(
    edition: Edition,
    header: &[u64],
    escrows: &[u64],
    receipts: &[u64],
    marks: &mut [bool; MAX_ESCROWS],
    time: u64,
    limit: u64,
) -> Closed
    requires { Sweeps edition header.now escrows.now receipts.now time × Unmarked marks.old }
    ensures { (result.rows ≤ limit) × ((K : Ledger) → let L = any K of_edition edition seeing_header header seeing_escrows escrows seeing_receipts receipts in Good L.entry → Receipted L.entry time (limit - result.rows) result.amount (swept_receipts time limit L.entry)) }
{
    let written = header[RECEIPTS];
    let mut rows = 0;
    let mut amount = 0;
    for row in 0..written {
        if limit <= rows {
            break;
        }
        let number = ReceiptNumber(row + 1);
        if let Some(released) = receipt_turn(edition, escrows, receipts, marks, number, time) {
            rows += 1;
            amount += released;
        }
    }
    Closed { rows, amount }
}

// One escrow, likewise: its amount, if it expires.
fn escrow_turn(edition: Edition, escrows: &[u64], number: EscrowNumber, time: u64) -> Option<u64>
    requires { Names number.0 × (edition.escrow < 2 ^ 16) }
    ensures { result ≡ expired_turn edition escrows.now time (number.0 - 1) }
{
    let state = numbered::escrow(edition, escrows, number, ESCROW_STATE);
    let deadline = numbered::escrow(edition, escrows, number, ESCROW_DEADLINE);
    if sweeping::is_due(state, IS_OPEN, deadline, time) {
        Some(numbered::escrow(edition, escrows, number, ESCROW_AMOUNT))
    } else {
        None
    }
}

// All escrows in row order, while there is room: what expires. An escrow that the receipts release is not stale, so it is not due before
// them nor after. The loop is that over receipts without marks; one for both would take the turn as a closure that holds the marks, and
// could say what a row adds only by the closure's contract.
fn escrow_turns(edition: Edition, header: &[u64], escrows: &[u64], time: u64, limit: u64) -> u64
    requires { Expires edition header.now escrows.now time }
    ensures { (K : Ledger) (S : Sweep) (released : ℕ) → let L = any K of_edition edition seeing_header header seeing_escrows escrows in Receipted L.entry time limit released S → Ended L.entry released result (loop (get_or header.now Limits.ESCROWS 0) (sweep_escrow time) S).tables }
{
    let written = header[ESCROWS];
    let mut rows = 0;
    let mut amount = 0;
    for row in 0..written {
        if limit <= rows {
            break;
        }
        if let Some(expired) = escrow_turn(edition, escrows, EscrowNumber(row + 1), time) {
            rows += 1;
            amount += expired;
        }
    }
    amount
}

// What a sweep adds: what its receipts release, and what expires with the room that they leave. The marks are a fixed array: nothing is allocated.
fn sweep_adds(
    edition: Edition,
    header: &[u64],
    escrows: &[u64],
    receipts: &[u64],
    time: u64,
    limit: u64,
) -> [u64; FIGURES]
    requires { Sweeps edition header.now escrows.now receipts.now time }
    ensures { (K : Ledger) → let L = any K of_edition edition seeing_header header seeing_escrows escrows seeing_receipts receipts in Good L.entry → result ≡ figures 0 0 L.entry (swept time limit L.entry).tables }
{
    let mut marks = [false; MAX_ESCROWS];
    let accepts = receipt_turns(edition, header, escrows, receipts, &mut marks, time, limit);
    let released = accepts.amount;
    let room = limit - accepts.rows;
    let expired = escrow_turns(edition, header, escrows, time, room);
    [0, 0, released, 0, expired]
}

// What a submission that nothing refuses will add to the report's five figures, worked out on the tables as they are, before it is settled. They
// stand by place, in the paper's order.
pub fn adds(
    edition: Edition,
    header: &[u64],
    escrows: &[u64],
    receipts: &[u64],
    s: Submission,
) -> [u64; FIGURES]
    requires { Adds edition header.now escrows.now receipts.now s }
    ensures { (K : Ledger) → let L = any K of_edition edition seeing_header header seeing_escrows escrows seeing_receipts receipts in Settles L.entry s → result ≡ adds_of L.entry s (outcome 0 (settle s L.entry).word (settle s L.entry).after) }
{
    // no table of functions, as each arm is lent other tables
    match Operation::try_from(s.op) {
        Ok(Operation::Grant) => [s.amount, 0, 0, 0, 0],
        Ok(Operation::Transfer) => [0, s.amount, 0, 0, 0],
        Ok(Operation::Release) => {
            let amount = numbered::escrow(edition, escrows, EscrowNumber(s.target), ESCROW_AMOUNT);
            [0, 0, amount, 0, 0]
        },
        Ok(Operation::Refund) => {
            let amount = numbered::escrow(edition, escrows, EscrowNumber(s.target), ESCROW_AMOUNT);
            [0, 0, 0, amount, 0]
        },
        Ok(Operation::Reply) => {
            // a dispute; the bit is written out, and so computes to the definition's own
            if s.flags / ACCEPTS % 2 == 0 {
                return [0; FIGURES];
            }
            let amount = accepted(edition, escrows, receipts, ReceiptNumber(s.target), s.now);
            [0, 0, amount, 0, 0]
        },
        Ok(Operation::Sweep) => sweep_adds(edition, header, escrows, receipts, s.now, s.amount),
        // none of the five figures counts these; with an arm for each, a new operation is not forgotten here
        Ok(Operation::Open) => [0; FIGURES],
        Ok(Operation::Claim) => [0; FIGURES],
        Ok(Operation::Freeze) => [0; FIGURES],
        Ok(Operation::Caps) => [0; FIGURES],
        Ok(Operation::Close) => [0; FIGURES],
        // no well-formed record has another operation
        Err(_) => [0; FIGURES],
    }
}
