// Settling a submission that no refusal holds back: its operation, then the clock, then the journal.
#![tactic(auto)]

ghost use Rattle.std.specs.Prelude.{◌≡◌, ◌<◌, ◌≤◌, length, get_or};
ghost use Rattle.rules.specs.Limits;
ghost use Rattle.rules.specs.Ledger.{Ledger};
ghost use Rattle.rules.specs.Moments.{tables, lent, any, ◌of_edition◌, ◌with_header◌, ◌with_wallets◌, ◌with_escrows◌, ◌with_receipts◌, ◌with_journal◌};
ghost use Rattle.rules.specs.Settle.{done, operate, enter, settle};
ghost use Rattle.settling.specs.Needs.{Settles, Operates};

use rules::limits::{CLOCK, ENTRIES, JOURNAL_LEN, REFUNDED, RELEASED, SWEEP};
use rules::operation::Operation;
use rules::{Edition, Submission};

// The operation, by its name. Each is lent the tables that it changes, and so a `match`, and no table of functions of one type; the journal is
// lent to none. It answers the word of the definitions' `done`, 0 where there is none to say.
fn operate(
    edition: Edition,
    header: &mut [u64],
    wallets: &mut [u64],
    escrows: &mut [u64],
    receipts: &mut [u64],
    s: Submission,
) -> u64
    requires { Operates edition header.old wallets.old escrows.old receipts.old s }
    ensures { (K : Ledger) → let L = any K of_edition edition with_header header with_wallets wallets with_escrows escrows with_receipts receipts in done result L.exit ≡ operate s L.entry }
{
    match Operation::try_from(s.op) {
        Ok(Operation::Grant) => operations::grant(header, wallets, s),
        Ok(Operation::Transfer) => operations::transfer(header, wallets, s),
        Ok(Operation::Open) => operations::open_escrow(edition, header, wallets, escrows, s),
        Ok(Operation::Release) => operations::close_escrow(
            edition, header, wallets, escrows, s, RELEASED,
        ),
        Ok(Operation::Refund) => operations::close_escrow(
            edition, header, wallets, escrows, s, REFUNDED,
        ),
        Ok(Operation::Claim) => operations::claim(header, receipts, s),
        Ok(Operation::Reply) => operations::reply(edition, header, wallets, escrows, receipts, s),
        Ok(Operation::Sweep) => sweeping::sweep(
            edition, header, wallets, escrows, receipts, s.now, s.amount,
        ),
        Ok(Operation::Freeze) => operations::freeze(header, wallets, s),
        Ok(Operation::Caps) => operations::caps(header, wallets, s),
        Ok(Operation::Close) => operations::close(header, wallets, s),
        // no well-formed record has another operation
        Err(_) => 0,
    }
}

// All but a sweep add one journal row. The byte is tested by its number: it then computes to the definition's own test.
fn enter(header: &mut [u64], journal: &mut [u64], s: Submission, word: u64)
    requires { (Limits.ENTRIES < length header.old) × (get_or header.old Limits.ENTRIES 0 ≤ Limits.MAX_ENTRIES) }
    ensures { (K : Ledger) → let L = any K with_header header with_journal journal in L.exit ≡ enter s word L.entry }
{
    if s.op == SWEEP {
        return;
    }
    moves::append(
        header,
        journal,
        JOURNAL_LEN,
        ENTRIES,
        &[
            s.signer,
            s.nonce,
            u64::from(s.op),
            s.target,
            s.amount,
            s.now,
            word,
            s.link,
        ],
    );
}

// Settles a submission that nothing refuses; the answer's word. It is lent the five slices that the paper names.
pub fn settle(
    edition: Edition,
    header: &mut [u64],
    wallets: &mut [u64],
    escrows: &mut [u64],
    receipts: &mut [u64],
    journal: &mut [u64],
    s: Submission,
) -> u64
    requires { Settles (tables edition header wallets escrows receipts journal) s }
    ensures { let L = lent edition header wallets escrows receipts journal in done result L.exit ≡ settle s L.entry }
{
    let word = operate(edition, header, wallets, escrows, receipts, s);
    header[CLOCK] = s.now;
    enter(header, journal, s, word);
    word
}
