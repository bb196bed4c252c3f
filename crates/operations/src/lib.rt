// What each operation but the sweep does to the tables, over the small moves. Clock and journal are left to `settling`. What an operation
// may rely on stands in specs/Needs.antt; it is what no refusal and a sound ledger leave. Each answers the word of the definitions' `done`, which
// is 0 where there is none to say, and is lent only the tables that it reads or changes. A flag's bit, and each look-up with its
// `let .. else`, is written out: the bit computes to the definition's own, and an early return can stand in no function of its own.
#![tactic(auto)]

ghost use Rattle.std.specs.Prelude.{◌≡◌, ◌-◌};
ghost use Rattle.rules.specs.Limits;
ghost use Rattle.rules.specs.Ledger.{Ledger};
ghost use Rattle.rules.specs.Moments.{any, ◌of_edition◌, ◌with_header◌, ◌with_wallets◌, ◌with_escrows◌, ◌with_receipts◌, ◌seeing_header◌};
ghost use Rattle.rules.specs.Record.{bit};
ghost use Rattle.rules.specs.Settle.{done, grant, transfer, open_escrow, end_escrow, claim, accept, dispute, reply, freeze, caps, close};
ghost use Rattle.rows.specs.Numbered.{Names};
ghost use Rattle.moves.specs.Needs.{Ends, Accepts};
ghost use Rattle.operations.specs.Needs.{Granting, Paying, Opening, Claiming, Naming, Freezing};

use rows::numbered;
use rules::limits::{
    ACCEPTS, AUTO_OR_FREEZE, BALANCE, DAILY_CAP, DISPUTED, ESCROWS, FROZEN, GRANTED, IS_CLOSED,
    IS_OPEN, LOCKED, PENDING, RECEIPT_LEN, RECEIPTS, SYSTEM_FROZEN, TX_CAP, WALLETS,
};
use rules::{Edition, EscrowNumber, ReceiptNumber, Submission, WalletState};

// Grant raises the target's balance and the granted total.
pub fn grant(header: &mut [u64], wallets: &mut [u64], s: Submission) -> u64
    requires { Granting header.old wallets.old s }
    ensures { (K : Ledger) → let L = any K with_header header with_wallets wallets in done result L.exit ≡ grant s L.entry }
{
    let granted = header[GRANTED];
    let target = moves::ensure_wallet(header, wallets, s.target);
    moves::raise(wallets, target, BALANCE, s.amount);
    header[GRANTED] = granted + s.amount;
    0
}

// Transfer moves balance. The signer is looked up among the wallets that are there, before the target's is made.
pub fn transfer(header: &mut [u64], wallets: &mut [u64], s: Submission) -> u64
    requires { Paying header.old wallets.old s }
    ensures { (K : Ledger) → let L = any K with_header header with_wallets wallets in done result L.exit ≡ transfer s L.entry }
{
    let found = numbered::find_wallet(wallets, header[WALLETS] as usize, s.signer);
    // 13 and 43 refuse a signer who is missing or closed
    let WalletState::Live(signer) = found else {
        return 0;
    };
    let target = moves::ensure_wallet(header, wallets, s.target);
    moves::move_credits(wallets, signer, BALANCE, target, BALANCE, s.amount);
    0
}

// Open moves balance to locked; the word is the escrow's number.
pub fn open_escrow(
    edition: Edition,
    header: &mut [u64],
    wallets: &mut [u64],
    escrows: &mut [u64],
    s: Submission,
) -> u64
    requires { Opening edition header.old wallets.old s }
    ensures { (K : Ledger) → let L = any K of_edition edition with_header header with_wallets wallets with_escrows escrows in done result L.exit ≡ open_escrow s L.entry }
{
    let found = numbered::find_wallet(wallets, header[WALLETS] as usize, s.signer);
    // 13 and 43 refuse a signer who is missing or closed
    let WalletState::Live(signer) = found else {
        return 0;
    };
    moves::ensure_wallet(header, wallets, s.target);
    moves::move_credits(wallets, signer, BALANCE, signer, LOCKED, s.amount);
    moves::append(
        header,
        escrows,
        edition.escrow,
        ESCROWS,
        &[s.signer, s.target, s.amount, s.until, IS_OPEN, s.now, 0, 0],
    )
}

// Release and refund end the escrow that the target names, in the state that is given, a word of the table: release pays the
// recipient, refund the sender.
pub fn close_escrow(
    edition: Edition,
    header: &[u64],
    wallets: &mut [u64],
    escrows: &mut [u64],
    s: Submission,
    state: u64,
) -> u64
    requires { Names s.target × Ends edition header.now wallets.old escrows.old (s.target - 1) }
    ensures { (K : Ledger) → let L = any K of_edition edition seeing_header header with_wallets wallets with_escrows escrows in done result L.exit ≡ done 0 (end_escrow state s.now s.signer (s.target - 1) L.entry) }
{
    let number = EscrowNumber(s.target);
    moves::end_escrow(
        edition, header, wallets, escrows, number, state, s.now, s.signer,
    );
    0
}

// Bit 2 of the flags: auto-accept, or freeze.
fn auto_or_freeze(flags: u8) -> u64
    ensures { result ≡ bit Limits.AUTO_OR_FREEZE flags }
{
    u64::from(flags / AUTO_OR_FREEZE % 2)
}

// Claim's word is the receipt's number.
pub fn claim(header: &mut [u64], receipts: &mut [u64], s: Submission) -> u64
    requires { Claiming header.old }
    ensures { (K : Ledger) → let L = any K with_header header with_receipts receipts in done result L.exit ≡ claim s L.entry }
{
    let auto = auto_or_freeze(s.flags);
    moves::append(
        header,
        receipts,
        RECEIPT_LEN,
        RECEIPTS,
        &[
            s.signer, s.target, s.link, s.until, auto, PENDING, s.now, 0, 0, 0, s.hash0, s.hash1,
            s.hash2, s.hash3,
        ],
    )
}

// Accept closes the receipt, and releases the escrow that it links if it can.
fn accept(
    edition: Edition,
    header: &[u64],
    wallets: &mut [u64],
    escrows: &mut [u64],
    receipts: &mut [u64],
    s: Submission,
) -> u64
    requires { Names s.target × Accepts edition header.now wallets.old escrows.old receipts.old s.now (s.target - 1) }
    ensures { (K : Ledger) → let L = any K of_edition edition seeing_header header with_wallets wallets with_escrows escrows with_receipts receipts in done result L.exit ≡ accept s L.entry }
{
    let number = ReceiptNumber(s.target);
    moves::accept_receipt(
        edition, header, wallets, escrows, receipts, number, s.now, s.signer,
    )
}

// Dispute closes the receipt as disputed and moves no credits.
fn dispute(receipts: &mut [u64], s: Submission) -> u64
    requires { Names s.target }
    ensures { (K : Ledger) → let L = any K with_receipts receipts in done result L.exit ≡ dispute s L.entry }
{
    let number = ReceiptNumber(s.target);
    moves::close_receipt(receipts, number, DISPUTED, s.now, s.signer);
    0
}

// A reply to a claim is an accept or a dispute, by bit 2.
pub fn reply(
    edition: Edition,
    header: &[u64],
    wallets: &mut [u64],
    escrows: &mut [u64],
    receipts: &mut [u64],
    s: Submission,
) -> u64
    requires { Names s.target × Accepts edition header.now wallets.old escrows.old receipts.old s.now (s.target - 1) }
    ensures { (K : Ledger) → let L = any K of_edition edition seeing_header header with_wallets wallets with_escrows escrows with_receipts receipts in done result L.exit ≡ reply s L.entry }
{
    if s.flags / ACCEPTS % 2 == 0 {
        return dispute(receipts, s);
    }
    accept(edition, header, wallets, escrows, receipts, s)
}

// Freeze sets the wallet's frozen word, or the system's for target 0, to bit 2.
pub fn freeze(header: &mut [u64], wallets: &mut [u64], s: Submission) -> u64
    requires { Freezing header.old wallets.old s }
    ensures { (K : Ledger) → let L = any K with_header header with_wallets wallets in done result L.exit ≡ freeze s L.entry }
{
    let frozen = auto_or_freeze(s.flags);
    if s.target == 0 {
        header[SYSTEM_FROZEN] = frozen;
        return 0;
    }
    let found = numbered::find_wallet(wallets, header[WALLETS] as usize, s.target);
    // 16 and 43 refuse a target that is missing or closed: a closed wallet is not opened again
    let WalletState::Live(target) = found else {
        return 0;
    };
    numbered::set_wallet(wallets, target, FROZEN, frozen);
    0
}

// Caps sets both caps.
pub fn caps(header: &[u64], wallets: &mut [u64], s: Submission) -> u64
    requires { Naming header.now wallets.old s }
    ensures { (K : Ledger) → let L = any K seeing_header header with_wallets wallets in done result L.exit ≡ caps s L.entry }
{
    let found = numbered::find_wallet(wallets, header[WALLETS] as usize, s.target);
    // 16 and 43 refuse a target that is missing or closed
    let WalletState::Live(target) = found else {
        return 0;
    };
    numbered::set_wallet(wallets, target, TX_CAP, s.amount);
    numbered::set_wallet(wallets, target, DAILY_CAP, s.link);
    0
}

// Close sets the wallet's frozen word to 2, for good.
pub fn close(header: &[u64], wallets: &mut [u64], s: Submission) -> u64
    requires { Naming header.now wallets.old s }
    ensures { (K : Ledger) → let L = any K seeing_header header with_wallets wallets in done result L.exit ≡ close s L.entry }
{
    let found = numbered::find_wallet(wallets, header[WALLETS] as usize, s.target);
    // 16 and 43 refuse a target that is missing or closed
    let WalletState::Live(target) = found else {
        return 0;
    };
    numbered::set_wallet(wallets, target, FROZEN, IS_CLOSED);
    0
}
