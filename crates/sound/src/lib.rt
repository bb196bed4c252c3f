// Whether a ledger is sound, exactly, for any words: one pass over each table.
#![tactic(auto)]

ghost use Rattle.std.specs.Prelude.{◌≡◌, true, ◌≤◌, length};
ghost use Rattle.rules.specs.Limits;
ghost use Rattle.rules.specs.Table.{all};
ghost use Rattle.rules.specs.Ledger.{Sized, lengths_right};
ghost use Rattle.rules.specs.Moments.{ledger_in};
ghost use Rattle.rules.specs.Sound.{header_tests, sound};

use rules::limits::{
    CLOCK, EDITION, ENTRIES, ESCROWS, GRANTED, JOURNAL_LEN, LAST_TIME_MS, RECEIPT_LEN, RECEIPTS,
    SYSTEM_FROZEN, WALLET_LEN, WALLETS,
};
use rules::tables::Tables;

mod escrows;
mod journal;
mod receipts;
mod wallets;

// The edition, a flag, the clock, and counts within their tables.
fn header_right(ledger: Tables<'_>) -> bool
    requires { (Limits.HEADER_LEN ≤ length (ledger_in ledger).header) × (Limits.ESCROW_LEN ≤ ledger.edition.escrow) }
    ensures { result ≡ all (header_tests (ledger_in ledger.entry)) }
{
    let Tables {
        edition,
        header,
        wallets,
        escrows,
        receipts,
        journal,
    } = ledger;
    (header[EDITION] == edition.number)
        & ((header[SYSTEM_FROZEN] <= 1)
            & ((header[CLOCK] <= LAST_TIME_MS)
                & ((header[WALLETS] as usize <= wallets.len() / WALLET_LEN)
                    & ((header[ESCROWS] as usize <= escrows.len() / edition.escrow)
                        & ((header[RECEIPTS] as usize <= receipts.len() / RECEIPT_LEN)
                            & (header[ENTRIES] as usize <= journal.len() / JOURNAL_LEN))))))
}

// Whether the ledger is sound. Its tables have the right lengths.
pub fn is_sound(ledger: Tables<'_>) -> bool
    requires { (lengths_right (ledger_in ledger) ≡ true) × Sized ledger.edition }
    ensures { result ≡ sound (ledger_in ledger.entry) }
{
    if !header_right(ledger) {
        return false;
    }
    let Tables {
        edition,
        header,
        wallets,
        escrows,
        receipts,
        journal,
    } = ledger;
    let n = header[WALLETS] as usize;
    let m = header[ESCROWS] as usize;
    if !wallets::wallets_right(wallets, n) {
        return false;
    }
    if !wallets::total_right(wallets, n, header[GRANTED]) {
        return false;
    }
    if !escrows::parties_right(wallets, n, escrows, edition.escrow, m) {
        return false;
    }
    if !receipts::receipts_right(
        escrows,
        edition.escrow,
        m,
        receipts,
        header[RECEIPTS] as usize,
    ) {
        return false;
    }
    journal::entries_right(journal, header[ENTRIES] as usize)
}
