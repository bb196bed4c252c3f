// The calls on a ledger of any edition: what holds for every edition is written and proved once. Each call takes the edition by value and asks
// of it only that it is `Sized`; `ledger` has the calls of each edition that there is, which ask nothing. `step` alone asks something of the
// tables, and no edition has it as a call. Tables that may be changed are five lent slices, the form that the paper names; those that are only read
// come in one piece.
#![tactic(auto)]

ghost use Rattle.std.specs.Prelude.{◌≡◌};
ghost use Rattle.rules.specs.Ledger.{Sized, outcome, lengths_right, fresh};
ghost use Rattle.rules.specs.Moments.{tables, lent, ledger_in};
ghost use Rattle.rules.specs.Numbers.{as_number, word_of, decided_as};
ghost use Rattle.rules.specs.Sound.{Ready};
ghost use Rattle.rules.specs.Submit.{decided, submit};

use rules::limits::{
    EDITION, JOURNAL_LEN, MAX_ENTRIES, MAX_ESCROWS, MAX_RECEIPTS, MAX_WALLETS, RECEIPT_LEN,
    WALLET_LEN,
};
use rules::refusal::Refusal;
use rules::tables::Tables;
use rules::{Decided, Edition, NOTHING};

// Whether all five slices have right lengths.
pub fn lengths_right(ledger: Tables<'_>) -> bool
    requires { Sized ledger.edition }
    ensures { result ≡ lengths_right (ledger_in ledger.entry) }
{
    let w = rows::table_right(ledger.wallets, WALLET_LEN, MAX_WALLETS);
    let e = rows::table_right(ledger.escrows, ledger.edition.escrow, MAX_ESCROWS);
    let r = rows::table_right(ledger.receipts, RECEIPT_LEN, MAX_RECEIPTS);
    let j = rows::table_right(ledger.journal, JOURNAL_LEN, MAX_ENTRIES);
    (ledger.header.len() == ledger.edition.header) & (w & (e & (r & j)))
}

// Starts afresh: the header is the edition's number and zeros; or refuses a wrong length. Nothing else is touched.
pub fn fresh(
    edition: Edition,
    header: &mut [u64],
    wallets: &mut [u64],
    escrows: &mut [u64],
    receipts: &mut [u64],
    journal: &mut [u64],
) -> Result<(), Refusal>
    requires { Sized edition }
    ensures { let L = lent edition header wallets escrows receipts journal in outcome (as_number result) 0 L.exit ≡ fresh L.entry }
{
    let ledger = Tables {
        edition,
        header,
        wallets,
        escrows,
        receipts,
        journal,
    };
    if !lengths_right(ledger) {
        return Err(Refusal::BadTable);
    }
    header.fill(0);
    header[EDITION] = edition.number;
    Ok(())
}

// The first half of a step: what the record is read as, and whether it is refused. Nothing is changed, so that a caller can still look at the
// tables before it settles, or not settle at all.
pub fn decide(ledger: Tables<'_>, bytes: &[u8]) -> Decided
    requires { Sized ledger.edition × Ready (ledger_in ledger) }
    ensures { decided_as result ≡ decided (ledger_in ledger.entry) bytes.now }
{
    match record::read_record(bytes) {
        Some(submission) => Decided {
            submission,
            outcome: refusals::refusal(ledger, submission),
        },
        None => Decided {
            submission: NOTHING,
            outcome: Err(Refusal::MalformedRecord),
        },
    }
}

// A submission behind its first two tests. Right lengths and a sound ledger are asked of the caller here, and not tested: `submit` has just tested
// them, and a replay has them for every entry, since a ledger started afresh is sound, and each submission leaves it so.
pub fn step(
    edition: Edition,
    header: &mut [u64],
    wallets: &mut [u64],
    escrows: &mut [u64],
    receipts: &mut [u64],
    journal: &mut [u64],
    bytes: &[u8],
) -> Result<u64, Refusal>
    requires { Sized edition × Ready (tables edition header wallets escrows receipts journal) }
    ensures { let L = lent edition header wallets escrows receipts journal in outcome (as_number result) (word_of result) L.exit ≡ submit L.entry bytes.now }
{
    let ledger = Tables {
        edition,
        header,
        wallets,
        escrows,
        receipts,
        journal,
    };
    let decided = decide(ledger, bytes);
    decided.outcome?;
    let word = settling::settle(
        edition,
        header,
        wallets,
        escrows,
        receipts,
        journal,
        decided.submission,
    );
    Ok(word)
}

// A submission of any bytes over any five tables: the first refusal in the listed order, and nothing changed; or the answer's word, and the
// ledger that document 01 lays down.
pub fn submit(
    edition: Edition,
    header: &mut [u64],
    wallets: &mut [u64],
    escrows: &mut [u64],
    receipts: &mut [u64],
    journal: &mut [u64],
    bytes: &[u8],
) -> Result<u64, Refusal>
    requires { Sized edition }
    ensures { let L = lent edition header wallets escrows receipts journal in outcome (as_number result) (word_of result) L.exit ≡ submit L.entry bytes.now }
{
    let ledger = Tables {
        edition,
        header,
        wallets,
        escrows,
        receipts,
        journal,
    };
    if !lengths_right(ledger) {
        Err(Refusal::BadTable)
    } else if !sound::is_sound(ledger) {
        Err(Refusal::LedgerDamaged)
    } else {
        step(edition, header, wallets, escrows, receipts, journal, bytes)
    }
}
