// The sweep: due receipts in row order first, then due escrows in row order, until its limit. Its word counts the rows that it closed.
// The tables come one by one, as in `moves`: what is not lent stays.
#![tactic(auto)]

ghost use Rattle.std.specs.Prelude.{◌≡◌, ◌&&◌, ℕ, ◌+◌, ◌-◌, ◌<◌, ◌≤◌, min, get_or, eqb, ltb};
ghost use Rattle.std.specs.Int.{from_bool};
ghost use Rattle.rules.specs.Limits;
ghost use Rattle.rules.specs.Table.{loop};
ghost use Rattle.rules.specs.Ledger.{Ledger};
ghost use Rattle.rules.specs.Moments.{any, ◌of_edition◌, ◌with_wallets◌, ◌with_escrows◌, ◌with_receipts◌, ◌seeing_header◌};
ghost use Rattle.rules.specs.Settle.{done, close_due_receipt, sweep_receipt, sweep_escrow, swept_receipts, swept};
ghost use Rattle.rules.specs.Due.{due};
ghost use Rattle.rows.specs.Numbered.{Names};
ghost use Rattle.moves.specs.Needs.{Accepts};
ghost use Rattle.sweeping.specs.Needs.{under_way, Expires, Sweeping, Expiring};

use rows::numbered;
use rules::limits::{
    ACCEPTANCE_DEADLINE, AUTO_ACCEPT, ESCROW_DEADLINE, ESCROW_STATE, ESCROWS, EXPIRED, IS_OPEN,
    LAPSED, PENDING, RECEIPT_STATE, RECEIPTS,
};
use rules::{Edition, EscrowNumber, ReceiptNumber};

// The signer of what a sweep closes: the definitions write 0.
const NOBODY: u64 = 0;

// Whether a row is due: it is still waiting, and its deadline is before now. One test for receipts and escrows, over their words.
pub fn is_due(state: u64, waiting: u64, deadline: u64, time: u64) -> bool
    ensures { result ≡ (eqb state waiting && ltb deadline time) }
{
    (state == waiting) & (deadline < time)
}

// An auto-accept receipt is accepted, any other expires.
fn close_due_receipt(
    edition: Edition,
    header: &[u64],
    wallets: &mut [u64],
    escrows: &mut [u64],
    receipts: &mut [u64],
    number: ReceiptNumber,
    time: u64,
)
    requires { Names number.0 × Accepts edition header.now wallets.old escrows.old receipts.old time (number.0 - 1) }
    ensures { (K : Ledger) → let L = any K of_edition edition seeing_header header with_wallets wallets with_escrows escrows with_receipts receipts in L.exit ≡ close_due_receipt time (number.0 - 1) L.entry }
{
    let auto = numbered::receipt(receipts, number, AUTO_ACCEPT);
    if auto == 1 {
        moves::accept_receipt(
            edition, header, wallets, escrows, receipts, number, time, NOBODY,
        );
    } else {
        moves::close_receipt(receipts, number, LAPSED, time, NOBODY);
    }
}

// One receipt of a sweep that may still close a row: whether it was due.
fn sweep_receipt(
    edition: Edition,
    header: &[u64],
    wallets: &mut [u64],
    escrows: &mut [u64],
    receipts: &mut [u64],
    number: ReceiptNumber,
    time: u64,
) -> bool
    requires { Names number.0 × Accepts edition header.now wallets.old escrows.old receipts.old time (number.0 - 1) }
    ensures { (K : Ledger) (room closed : ℕ) → let L = any K of_edition edition seeing_header header with_wallets wallets with_escrows escrows with_receipts receipts in 0 < room → under_way (room - from_bool result) (closed + from_bool result) L.exit ≡ sweep_receipt time (number.0 - 1) (under_way room closed L.entry) }
{
    let state = numbered::receipt(receipts, number, RECEIPT_STATE);
    let deadline = numbered::receipt(receipts, number, ACCEPTANCE_DEADLINE);
    let due = is_due(state, PENDING, deadline, time);
    if due {
        close_due_receipt(edition, header, wallets, escrows, receipts, number, time);
    }
    due
}

// One escrow, likewise; it expires with its credits returned. The like of a receipt has other columns, and is lent other tables.
fn sweep_escrow(
    edition: Edition,
    header: &[u64],
    wallets: &mut [u64],
    escrows: &mut [u64],
    number: EscrowNumber,
    time: u64,
) -> bool
    requires { Names number.0 × Expires edition header.now wallets.old escrows.old (number.0 - 1) }
    ensures { (K : Ledger) (room closed : ℕ) → let L = any K of_edition edition seeing_header header with_wallets wallets with_escrows escrows in 0 < room → under_way (room - from_bool result) (closed + from_bool result) L.exit ≡ sweep_escrow time (number.0 - 1) (under_way room closed L.entry) }
{
    let state = numbered::escrow(edition, escrows, number, ESCROW_STATE);
    let deadline = numbered::escrow(edition, escrows, number, ESCROW_DEADLINE);
    let due = is_due(state, IS_OPEN, deadline, time);
    if due {
        moves::end_escrow(
            edition, header, wallets, escrows, number, EXPIRED, time, NOBODY,
        );
    }
    due
}

// All receipts in row order, while there is room: how many were closed.
fn sweep_receipts(
    edition: Edition,
    header: &[u64],
    wallets: &mut [u64],
    escrows: &mut [u64],
    receipts: &mut [u64],
    time: u64,
    limit: u64,
) -> u64
    requires { Sweeping edition header.now wallets.old escrows.old receipts.old time }
    ensures { (result ≤ limit) × ((K : Ledger) → let L = any K of_edition edition seeing_header header with_wallets wallets with_escrows escrows with_receipts receipts in under_way (limit - result) result L.exit ≡ swept_receipts time limit L.entry) }
{
    let written = header[RECEIPTS];
    let mut closed = 0;
    for row in 0..written {
        if limit <= closed {
            break;
        }
        let number = ReceiptNumber(row + 1);
        let swept = sweep_receipt(edition, header, wallets, escrows, receipts, number, time);
        closed += u64::from(swept);
    }
    closed
}

// All escrows in row order, while there is room. The loop is that over receipts with other tables lent; one loop for both, given the turn
// of a row as a closure, could speak of the tables only by the closure's contract, which either caller would have to unfold again.
fn sweep_escrows(
    edition: Edition,
    header: &[u64],
    wallets: &mut [u64],
    escrows: &mut [u64],
    time: u64,
    limit: u64,
) -> u64
    requires { Expiring edition header.now wallets.old escrows.old time }
    ensures { (result ≤ limit) × ((K : Ledger) (closed : ℕ) → let L = any K of_edition edition seeing_header header with_wallets wallets with_escrows escrows in under_way (limit - result) (closed + result) L.exit ≡ loop (get_or header.now Limits.ESCROWS 0) (sweep_escrow time) (under_way limit closed L.entry)) }
{
    let written = header[ESCROWS];
    let mut closed = 0;
    for row in 0..written {
        if limit <= closed {
            break;
        }
        let number = EscrowNumber(row + 1);
        let swept = sweep_escrow(edition, header, wallets, escrows, number, time);
        closed += u64::from(swept);
    }
    closed
}

// The sweep: how many rows it closed, which is the smaller of its limit and the rows that were due.
pub fn sweep(
    edition: Edition,
    header: &[u64],
    wallets: &mut [u64],
    escrows: &mut [u64],
    receipts: &mut [u64],
    time: u64,
    limit: u64,
) -> u64
    requires { Sweeping edition header.now wallets.old escrows.old receipts.old time }
    ensures { (K : Ledger) → let L = any K of_edition edition seeing_header header with_wallets wallets with_escrows escrows with_receipts receipts in (done result L.exit ≡ done (swept time limit L.entry).closed (swept time limit L.entry).tables) × (result ≡ min limit (due L.entry time)) }
{
    let closed = sweep_receipts(edition, header, wallets, escrows, receipts, time, limit);
    let expired = sweep_escrows(edition, header, wallets, escrows, time, limit - closed);
    closed + expired
}
