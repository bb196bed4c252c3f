// Checks 15 to 43 of the operations on escrows and receipts: release and refund, claim, the reply to a claim. Each condition is worked out by
// the paper's name, and then the first that holds is taken, in the order of check. A function that does not need all tables is lent only those that
// it looks at: so its contract says that no other table decides it.
// A one-line test (a flag's bit, an open escrow, a full table) is written out: it computes to the definition's own, and a call would have to be cited.
// The header is asked to have the words that are read, and no more (`ENTRIES < length header`), as a check needs no sound ledger.
#![tactic(auto)]

ghost use Rattle.std.specs.Prelude.{◌≡◌, true, ◌⊎◌, ◌*◌, ◌^◌, ◌≤◌, ◌<◌, get_or, length};
ghost use Rattle.rules.specs.Limits;
ghost use Rattle.rules.specs.Ledger.{Ledger, Sized, written};
ghost use Rattle.rules.specs.Moments.{any, ledger_in, ◌of_edition◌, ◌seeing_header◌, ◌seeing_escrows◌, ◌seeing_receipts◌, ◌seeing_journal◌};
ghost use Rattle.rules.specs.Numbers.{as_number};
ghost use Rattle.rules.specs.Refusals.{first, operation_refusals};
ghost use Rattle.rows.specs.Numbered.{Names};
ghost use Rattle.holds.specs.Terms.{link_refusals, term_refusals};

use rules::limits::{
    ACCEPTANCE_DEADLINE, ACCEPTS, ADMIN, ENTRIES, ESCROW_DEADLINE, ESCROW_STATE, ESCROWS, FROM,
    IS_OPEN, JOURNAL_LEN, MAX_ACCEPTANCE_MS, MIN_ACCEPTANCE_MS, PENDING, REASON_GIVEN, RECEIPT_LEN,
    RECEIPT_STATE, RECEIPTS, REQUESTER, TO, WALLETS,
};
use rules::refusal::{Refusal, first_of};
use rules::tables::Tables;
use rules::{Edition, EscrowNumber, ReceiptNumber, Submission, WalletState};

// Whether a number names one of so many written rows.
fn written(count: u64, number: u64) -> bool
    requires { count ≤ 2 ^ 32 }
    ensures is { result ≡ written count number }
    ensures row { result ≡ true → Names number }
{
    (0 < number) & (number <= count)
}

// A release or a refund: checks 27 to 29, 40.
pub fn closing_refusal(
    edition: Edition,
    header: &[u64],
    escrows: &[u64],
    journal: &[u64],
    s: Submission,
) -> Result<(), Refusal>
    requires { (Limits.ENTRIES < length header.now) × (get_or header.now Limits.ESCROWS 0 ≤ Limits.MAX_ESCROWS) × ((s.op ≡ Limits.RELEASE) ⊎ (s.op ≡ Limits.REFUND)) × Sized edition }
    ensures { (K : Ledger) → let L = any K of_edition edition seeing_header header seeing_escrows escrows seeing_journal journal in as_number result ≡ first (operation_refusals L.entry s) }
{
    if !written(header[ESCROWS], s.target) {
        return Err(Refusal::EscrowNotFound);
    }
    let escrow = EscrowNumber(s.target);
    let from = rows::numbered::escrow(edition, escrows, escrow, FROM);
    let deadline = rows::numbered::escrow(edition, escrows, escrow, ESCROW_DEADLINE);
    let state = rows::numbered::escrow(edition, escrows, escrow, ESCROW_STATE);
    let signer_not_authorized = (s.signer != from) & (s.flags / ADMIN % 2 == 0);
    let not_open = !((state == IS_OPEN) & (s.now <= deadline));
    let journal_table_full = journal.len() / JOURNAL_LEN <= header[ENTRIES] as usize;
    first_of([
        (signer_not_authorized, Refusal::EscrowSignerNotAuthorized),
        (not_open, Refusal::EscrowNotOpen),
        (journal_table_full, Refusal::JournalTableFull),
    ])
}

// Checks 27, 29 to 31 of a claim with a link: the escrow that it links.
fn link_refusal(
    edition: Edition,
    header: &[u64],
    escrows: &[u64],
    s: Submission,
) -> Result<(), Refusal>
    requires { (Limits.ESCROWS < length header.now) × (get_or header.now Limits.ESCROWS 0 ≤ Limits.MAX_ESCROWS) × Sized edition }
    ensures { (K : Ledger) → let L = any K of_edition edition seeing_header header seeing_escrows escrows in as_number result ≡ first (link_refusals L.entry s) }
{
    if !written(header[ESCROWS], s.link) {
        return Err(Refusal::EscrowNotFound);
    }
    let escrow = EscrowNumber(s.link);
    let from = rows::numbered::escrow(edition, escrows, escrow, FROM);
    let to = rows::numbered::escrow(edition, escrows, escrow, TO);
    let deadline = rows::numbered::escrow(edition, escrows, escrow, ESCROW_DEADLINE);
    let state = rows::numbered::escrow(edition, escrows, escrow, ESCROW_STATE);
    let escrow_not_open = !((state == IS_OPEN) & (s.now <= deadline));
    let did_mismatch = (from != s.target) | (to != s.signer);
    let exceeds_escrow = deadline < s.until;
    first_of([
        (escrow_not_open, Refusal::EscrowNotOpen),
        (did_mismatch, Refusal::EscrowDidMismatch),
        (exceeds_escrow, Refusal::AcceptanceDeadlineExceedsEscrow),
    ])
}

// Checks 24 to 27, 29 to 31, 39, 40 of a claim whose parties are live: its times, the escrow that it links, and room.
fn terms_refusal(
    edition: Edition,
    header: &[u64],
    escrows: &[u64],
    receipts: &[u64],
    journal: &[u64],
    s: Submission,
) -> Result<(), Refusal>
    requires { (Limits.ENTRIES < length header.now) × (get_or header.now Limits.ESCROWS 0 ≤ Limits.MAX_ESCROWS) × (s.issued ≤ Limits.LAST_TIME_MS) × Sized edition }
    ensures { (K : Ledger) → let L = any K of_edition edition seeing_header header seeing_escrows escrows seeing_receipts receipts seeing_journal journal in as_number result ≡ first (term_refusals L.entry s) }
{
    let window_too_short = s.until < s.issued + MIN_ACCEPTANCE_MS;
    let window_too_long = s.issued + MAX_ACCEPTANCE_MS < s.until;
    let deadline_past = s.until < s.now;
    let receipt_table_full = receipts.len() / RECEIPT_LEN <= header[RECEIPTS] as usize;
    let journal_table_full = journal.len() / JOURNAL_LEN <= header[ENTRIES] as usize;
    first_of([
        (window_too_short, Refusal::AcceptanceWindowTooShort),
        (window_too_long, Refusal::AcceptanceWindowTooLong),
        (deadline_past, Refusal::AcceptanceDeadlinePast),
    ])?;
    if s.link != 0 {
        link_refusal(edition, header, escrows, s)?;
    }
    first_of([
        (receipt_table_full, Refusal::ReceiptTableFull),
        (journal_table_full, Refusal::JournalTableFull),
    ])
}

// A claim: checks 15, 43, 22 to 27, 29 to 31, 39, 40, in this order. A closed party is told before a missing one.
pub fn claim_refusal(ledger: Tables<'_>, s: Submission) -> Result<(), Refusal>
    requires { (Limits.ENTRIES < length ledger.header.now) × (get_or ledger.header.now Limits.ESCROWS 0 ≤ Limits.MAX_ESCROWS) × (get_or ledger.header.now Limits.WALLETS 0 * Limits.WALLET_LEN ≤ length ledger.wallets.now) × (s.issued ≤ Limits.LAST_TIME_MS) × (s.op ≡ Limits.CLAIM) × Sized ledger.edition }
    ensures { as_number result ≡ first (operation_refusals (ledger_in ledger.entry) s) }
{
    if (s.target == 0) | (s.target == s.signer) {
        return Err(Refusal::RecipientInvalid);
    }
    let count = ledger.header[WALLETS] as usize;
    let provider = rows::numbered::find_wallet(ledger.wallets, count, s.signer);
    let requester = rows::numbered::find_wallet(ledger.wallets, count, s.target);
    match (provider, requester) {
        (WalletState::Closed(_), _) | (_, WalletState::Closed(_)) => Err(Refusal::WalletClosed),
        (WalletState::Missing, WalletState::Missing) => Err(Refusal::ProviderNotFound),
        (WalletState::Missing, WalletState::Live(_)) => Err(Refusal::ProviderNotFound),
        (WalletState::Live(_), WalletState::Missing) => Err(Refusal::RequesterNotFound),
        (WalletState::Live(_), WalletState::Live(_)) => {
            terms_refusal(
                ledger.edition,
                ledger.header,
                ledger.escrows,
                ledger.receipts,
                ledger.journal,
                s,
            )
        }
    }
}

// A reply, an accept or a dispute: checks 32, 33, 34, 41, 35, 40, in this order. A dispute alone needs a reason.
pub fn reply_refusal(
    header: &[u64],
    receipts: &[u64],
    journal: &[u64],
    s: Submission,
) -> Result<(), Refusal>
    requires { (Limits.ENTRIES < length header.now) × (get_or header.now Limits.RECEIPTS 0 ≤ Limits.MAX_RECEIPTS) × (s.op ≡ Limits.REPLY) }
    ensures { (K : Ledger) → let L = any K seeing_header header seeing_receipts receipts seeing_journal journal in as_number result ≡ first (operation_refusals L.entry s) }
{
    if !written(header[RECEIPTS], s.target) {
        return Err(Refusal::ReceiptNotFound);
    }
    let receipt = ReceiptNumber(s.target);
    let requester = rows::numbered::receipt(receipts, receipt, REQUESTER);
    let deadline = rows::numbered::receipt(receipts, receipt, ACCEPTANCE_DEADLINE);
    let state = rows::numbered::receipt(receipts, receipt, RECEIPT_STATE);
    let signer_not_authorized = s.signer != requester;
    let not_pending = state != PENDING;
    let acceptance_closed = deadline < s.now;
    let reason_required = (s.flags / ACCEPTS % 2 == 0) & (s.flags / REASON_GIVEN % 2 == 0);
    let journal_table_full = journal.len() / JOURNAL_LEN <= header[ENTRIES] as usize;
    first_of([
        (signer_not_authorized, Refusal::ReceiptSignerNotAuthorized),
        (not_pending, Refusal::ReceiptNotPending),
        (acceptance_closed, Refusal::AcceptanceClosed),
        (reason_required, Refusal::DisputeReasonRequired),
        (journal_table_full, Refusal::JournalTableFull),
    ])
}
