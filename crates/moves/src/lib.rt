// Small moves on the lent tables: a row added, credits moved, a row closed, an escrow ended, a receipt accepted. Each says what its
// tables hold afterwards; what it may rely on stands in specs/Needs.antt. The tables come one by one and not as one struct: a function is lent
// only what it reads or changes, and so its contract says of all else that it stays.
#![tactic(auto)]

ghost use Rattle.std.specs.Prelude.{◌≡◌, cond, ◌+◌, ◌-◌, ◌*◌, ◌<◌, ◌≤◌, ◌^◌, length, get_or, set, eqb};
ghost use Rattle.rules.specs.Limits;
ghost use Rattle.rules.specs.Table.{word, put_row};
ghost use Rattle.rules.specs.Ledger.{Ledger, row_of, put_escrow};
ghost use Rattle.rules.specs.Moments.{any, ◌of_edition◌, ◌with_header◌, ◌with_wallets◌, ◌with_escrows◌, ◌with_receipts◌, ◌seeing_header◌, ◌seeing_escrows◌};
ghost use Rattle.rules.specs.Settle.{ensure_wallet, end_escrow, close_receipt, accept_row, done};
ghost use Rattle.rules.specs.Refusals.{releasable};
ghost use Rattle.rows.specs.Numbered.{Names};
ghost use Rattle.moves.specs.Needs.{row_in, more, less, link_of, Counted, Moves, Ends, Accepts};

use rows::numbered;
use rules::limits::{
    ACCEPTED, BALANCE, DEFAULT_DAILY_CAP_MICRO, DEFAULT_TX_CAP_MICRO, ESCROW_AMOUNT,
    ESCROW_CLOSED_AT, ESCROW_CLOSED_BY, ESCROW_DEADLINE, ESCROW_STATE, FROM, IS_OPEN, LOCKED,
    RECEIPT_CLOSED_AT, RECEIPT_CLOSED_BY, RECEIPT_LINK, RECEIPT_STATE, RELEASE_CODE,
    RELEASE_IMPOSSIBLE, RELEASED, TO, WALLET_LEN, WALLETS,
};
use rules::{Edition, EscrowNumber, ReceiptNumber, WalletNumber, WalletState};

// A new row in the first unwritten place of a table; the header's word `count` counts its rows. Its number.
pub fn append(header: &mut [u64], t: &mut [u64], len: usize, count: usize, words: &[u64]) -> u64
    requires { (count < length header.old) × (get_or header.old count 0 < 2 ^ 32) × (len < 2 ^ 16) × (length words.now < 2 ^ 16) }
    ensures { (result ≡ get_or header.old count 0 + 1) × (header.new ≡ set header.old count (get_or header.old count 0 + 1)) × (t.new ≡ put_row t.old len (get_or header.old count 0) words.now) }
{
    let row = header[count];
    rows::put_row(t, len, row as usize, words);
    header[count] = row + 1;
    row + 1
}

// More in word k of a wallet.
pub fn raise(wallets: &mut [u64], number: WalletNumber, k: usize, amount: u64)
    requires { Names number.0 × (k < 2 ^ 16) × (word wallets.old Limits.WALLET_LEN (number.0 - 1) k + amount < 2 ^ 64) }
    ensures { wallets.new ≡ more wallets.old (number.0 - 1) k amount }
{
    let had = numbered::wallet(wallets, number, k);
    numbered::set_wallet(wallets, number, k, had + amount);
}

// Credits move from word k of a wallet to word j of another, or of the same.
pub fn move_credits(
    wallets: &mut [u64],
    from: WalletNumber,
    k: usize,
    to: WalletNumber,
    j: usize,
    amount: u64,
)
    requires { Moves wallets.old from.0 k to.0 j amount }
    ensures { wallets.new ≡ more (less wallets.old (from.0 - 1) k amount) (to.0 - 1) j amount }
{
    let had = numbered::wallet(wallets, from, k);
    numbered::set_wallet(wallets, from, k, had - amount);
    raise(wallets, to, j, amount);
}

// The wallet of an id. A missing one is made: zeros and the usual caps. A closed one is not missing, and gets no second row.
#[tactic(auto, using(crate::proofs::Wallets::looked_up))]
pub fn ensure_wallet(header: &mut [u64], wallets: &mut [u64], id: u64) -> WalletNumber
    requires { Counted header.old wallets.old }
    ensures { (result.0 ≡ row_in header.old wallets.old id + 1) × ((K : Ledger) → let L = any K with_header header with_wallets wallets in L.exit ≡ ensure_wallet id L.entry) }
{
    let written = header[WALLETS];
    let found = numbered::find_wallet(wallets, written as usize, id);
    match found {
        WalletState::Missing => {
            let made = append(
                header,
                wallets,
                WALLET_LEN,
                WALLETS,
                &[id, 0, 0, 0, DEFAULT_TX_CAP_MICRO, DEFAULT_DAILY_CAP_MICRO],
            );
            WalletNumber(made)
        },
        WalletState::Live(wallet) | WalletState::Closed(wallet) => wallet,
    }
}

// The wallet of a party to an escrow, live or closed: a sound ledger does not ask a closed one to be empty, so what ends treats its row as any other.
// A sound ledger has it; where it is missing, the definitions look behind the last row.
#[tactic(auto, using(crate::proofs::Wallets::looked_up))]
fn party(wallets: &[u64], written: usize, id: u64) -> WalletNumber
    requires { written * Limits.WALLET_LEN ≤ length wallets.now }
    ensures { result.0 ≡ row_of wallets.now written id + 1 }
{
    let found = numbered::find_wallet(wallets, written, id);
    match found {
        WalletState::Missing => WalletNumber(written as u64 + 1),
        WalletState::Live(number) | WalletState::Closed(number) => number,
    }
}

// Whom an ended escrow pays: the recipient if it is released, else the sender, whose wallet is known. The state is the table's word, as in
// `close_escrow`.
fn payee(
    wallets: &[u64],
    written: usize,
    state: u64,
    sender: WalletNumber,
    from: u64,
    to: u64,
) -> WalletNumber
    requires { (written * Limits.WALLET_LEN ≤ length wallets.now) × (sender.0 ≡ row_of wallets.now written from + 1) }
    ensures { result.0 ≡ row_of wallets.now written (cond (eqb state Limits.RELEASED) to from) + 1 }
{
    if state == RELEASED {
        party(wallets, written, to)
    } else {
        sender
    }
}

// State, closed at and closing signer of an escrow. The state is the table's word: the definitions put any, and so do this, `end_escrow` and
// `close_receipt`. A receipt has the like in columns of its own, and its rows have one length in every edition. State, time and signer come
// one by one, as the definitions take them.
fn close_escrow(
    edition: Edition,
    escrows: &mut [u64],
    number: EscrowNumber,
    state: u64,
    time: u64,
    signer: u64,
)
    requires { Names number.0 × (edition.escrow < 2 ^ 16) }
    ensures { (K : Ledger) → let L = any K of_edition edition with_escrows escrows in L.exit ≡ put_escrow (number.0 - 1) Limits.ESCROW_CLOSED_BY signer (put_escrow (number.0 - 1) Limits.ESCROW_CLOSED_AT time (put_escrow (number.0 - 1) Limits.ESCROW_STATE state L.entry)) }
{
    numbered::set_escrow(edition, escrows, number, ESCROW_STATE, state);
    numbered::set_escrow(edition, escrows, number, ESCROW_CLOSED_AT, time);
    numbered::set_escrow(edition, escrows, number, ESCROW_CLOSED_BY, signer);
}

// An escrow ends: its credits leave its sender's locked for the recipient's balance if it is released, else for the sender's own.
pub fn end_escrow(
    edition: Edition,
    header: &[u64],
    wallets: &mut [u64],
    escrows: &mut [u64],
    number: EscrowNumber,
    state: u64,
    time: u64,
    signer: u64,
)
    requires { Names number.0 × Ends edition header.now wallets.old escrows.old (number.0 - 1) }
    ensures { (K : Ledger) → let L = any K of_edition edition seeing_header header with_wallets wallets with_escrows escrows in L.exit ≡ end_escrow state time signer (number.0 - 1) L.entry }
{
    let from = numbered::escrow(edition, escrows, number, FROM);
    let to = numbered::escrow(edition, escrows, number, TO);
    let amount = numbered::escrow(edition, escrows, number, ESCROW_AMOUNT);
    let written = header[WALLETS] as usize;
    let sender = party(wallets, written, from);
    let paid = payee(wallets, written, state, sender, from, to);
    close_escrow(edition, escrows, number, state, time, signer);
    move_credits(wallets, sender, LOCKED, paid, BALANCE, amount);
}

// A receipt is closed: state, closed at and closing signer.
pub fn close_receipt(
    receipts: &mut [u64],
    number: ReceiptNumber,
    state: u64,
    time: u64,
    signer: u64,
)
    requires { Names number.0 }
    ensures { (K : Ledger) → let L = any K with_receipts receipts in L.exit ≡ close_receipt state time signer (number.0 - 1) L.entry }
{
    numbered::set_receipt(receipts, number, RECEIPT_STATE, state);
    numbered::set_receipt(receipts, number, RECEIPT_CLOSED_AT, time);
    numbered::set_receipt(receipts, number, RECEIPT_CLOSED_BY, signer);
}

// Whether an escrow is open and not stale.
pub fn is_releasable(edition: Edition, escrows: &[u64], number: EscrowNumber, time: u64) -> bool
    requires { Names number.0 × (edition.escrow < 2 ^ 16) }
    ensures { (K : Ledger) → let L = any K of_edition edition seeing_escrows escrows in result ≡ releasable L.entry time (number.0 - 1) }
{
    let state = numbered::escrow(edition, escrows, number, ESCROW_STATE);
    let deadline = numbered::escrow(edition, escrows, number, ESCROW_DEADLINE);
    (state == IS_OPEN) & (time <= deadline)
}

// The escrow that a receipt links, if any: its word is 0 where there is none.
#[tactic(auto, unfolding(crate::specs::Needs::link_of))]
pub fn link(receipts: &[u64], number: ReceiptNumber) -> Option<EscrowNumber>
    requires { Names number.0 }
    ensures { result ≡ link_of receipts.now (number.0 - 1) }
{
    let link = numbered::receipt(receipts, number, RECEIPT_LINK);
    if link == 0 {
        None
    } else {
        Some(EscrowNumber(link))
    }
}

// A receipt is accepted. Its escrow is released if it is open and not stale, and is the word; if that is impossible, 29 is stored. The answer is the
// word of the definitions' `done`, 0 where there is none to say.
pub fn accept_receipt(
    edition: Edition,
    header: &[u64],
    wallets: &mut [u64],
    escrows: &mut [u64],
    receipts: &mut [u64],
    number: ReceiptNumber,
    time: u64,
    signer: u64,
) -> u64
    requires { Names number.0 × Accepts edition header.now wallets.old escrows.old receipts.old time (number.0 - 1) }
    ensures { (K : Ledger) → let L = any K of_edition edition seeing_header header with_wallets wallets with_escrows escrows with_receipts receipts in done result L.exit ≡ accept_row time signer (number.0 - 1) L.entry }
{
    let linked = link(receipts, number);
    close_receipt(receipts, number, ACCEPTED, time, signer);
    let Some(link) = linked else {
        return 0;
    };
    if is_releasable(edition, escrows, link, time) {
        end_escrow(
            edition, header, wallets, escrows, link, RELEASED, time, signer,
        );
        return link.0;
    }
    numbered::set_receipt(receipts, number, RELEASE_CODE, RELEASE_IMPOSSIBLE);
    0
}
