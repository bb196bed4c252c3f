// Checks 4 to 43 on a ledger that is sound and a record that is well formed: the refusal of the first that holds, if one does. A family of
// operations is one group behind another: the conditions of a group are all worked out, and then its table is read in the order of check.
#![tactic(auto)]

ghost use Rattle.std.specs.Prelude.{◌≡◌};
ghost use Rattle.rules.specs.Moments.{ledger_in};
ghost use Rattle.rules.specs.Numbers.{as_number};
ghost use Rattle.rules.specs.Refusals.{first, operation_refusals};
ghost use Rattle.refusals.specs.Checkable.{Checkable, later_refusals};

use rules::Submission;
use rules::operation::Operation;
use rules::refusal::Refusal;
use rules::tables::Tables;

mod admin;

// Checks 12 to 43, by the operation: a `match` and no table of functions, as each arm is lent other tables.
#[tactic(auto, using(crate::proofs::Given::given))]
fn operation_refusal(ledger: Tables<'_>, s: Submission) -> Result<(), Refusal>
    requires { Checkable (ledger_in ledger) s }
    ensures { as_number result ≡ first (operation_refusals (ledger_in ledger.entry) s) }
{
    let Tables {
        edition,
        header,
        wallets,
        escrows,
        receipts,
        journal,
    } = ledger;
    match Operation::try_from(s.op) {
        Ok(Operation::Grant) => payments::grant_refusal(header, wallets, journal, s),
        Ok(Operation::Transfer) => payments::paying_refusal(
            edition, header, wallets, escrows, journal, s,
        ),
        Ok(Operation::Open) => payments::paying_refusal(
            edition, header, wallets, escrows, journal, s,
        ),
        Ok(Operation::Release) => holds::closing_refusal(edition, header, escrows, journal, s),
        Ok(Operation::Refund) => holds::closing_refusal(edition, header, escrows, journal, s),
        Ok(Operation::Claim) => holds::claim_refusal(ledger, s),
        Ok(Operation::Reply) => holds::reply_refusal(header, receipts, journal, s),
        Ok(Operation::Sweep) => admin::sweep_refusal(s),
        Ok(Operation::Freeze) => admin::freeze_refusal(header, wallets, journal, s),
        Ok(Operation::Caps) => admin::caps_refusal(header, wallets, journal, s),
        Ok(Operation::Close) => admin::close_refusal(edition, header, wallets, escrows, journal, s),
        // no well-formed record has another operation
        Err(_) => Ok(()),
    }
}

// Checks 4 to 43: those of the envelope, and if none of them holds, those of the operation.
#[tactic(auto, using(crate::proofs::Given::given))]
pub fn refusal(ledger: Tables<'_>, s: Submission) -> Result<(), Refusal>
    requires { Checkable (ledger_in ledger) s }
    ensures { as_number result ≡ first (later_refusals (ledger_in ledger.entry) s) }
{
    envelope::envelope_refusal(ledger.header, ledger.journal, s)?;
    operation_refusal(ledger, s)
}
