// The ledger's public calls over the five lent tables: header, wallets, escrows, receipts, journal. Each is the call of `editions`, or for a lookup
// of `looking`, at the first edition, and asks nothing of its caller. Each is lent the five slices that the paper names.
#![tactic(auto)]

ghost use Rattle.std.specs.Prelude.{◌≡◌};
ghost use Rattle.rules.specs.Ledger.{first_edition, outcome, fresh};
ghost use Rattle.rules.specs.Moments.{lent};
ghost use Rattle.rules.specs.Numbers.{as_number, word_of};
ghost use Rattle.rules.specs.Submit.{submit};

use rules::FIRST;
use rules::refusal::Refusal;

pub mod lookups;

// Starts afresh: the header is the edition's number and zeros; or refuses a wrong length. Nothing else is touched.
pub fn fresh(
    header: &mut [u64],
    wallets: &mut [u64],
    escrows: &mut [u64],
    receipts: &mut [u64],
    journal: &mut [u64],
) -> Result<(), Refusal>
    ensures { let L = lent first_edition header wallets escrows receipts journal in outcome (as_number result) 0 L.exit ≡ fresh L.entry }
{
    editions::fresh(FIRST, header, wallets, escrows, receipts, journal)
}

// A submission of any bytes over any five tables: the first refusal in the listed order, and nothing changed; or the answer's word, and the
// ledger that document 01 lays down.
pub fn submit(
    header: &mut [u64],
    wallets: &mut [u64],
    escrows: &mut [u64],
    receipts: &mut [u64],
    journal: &mut [u64],
    bytes: &[u8],
) -> Result<u64, Refusal>
    ensures { let L = lent first_edition header wallets escrows receipts journal in outcome (as_number result) (word_of result) L.exit ≡ submit L.entry bytes.now }
{
    editions::submit(FIRST, header, wallets, escrows, receipts, journal, bytes)
}
