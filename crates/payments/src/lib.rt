// Checks 12 to 43 of the operations that bring credits to a wallet: grant, transfer and open. Each check is lent only the tables that it looks at,
// and not the ledger in one piece: so its contract says that no other table decides it.
// A one-line test (a full table, an operation's byte) is written out: it computes to the definition's own, and a call would have to be cited.
// The header is asked to have the words that are read, and no more (`ENTRIES < length header`), as a check needs no sound ledger.
#![tactic(auto)]

ghost use Rattle.std.specs.Prelude.{◌≡◌, ◌⊎◌, ◌+◌, ◌*◌, ◌≤◌, ◌<◌, get_or, length};
ghost use Rattle.rules.specs.Limits;
ghost use Rattle.rules.specs.Ledger.{Ledger, Sized, row_of};
ghost use Rattle.rules.specs.Moments.{any, ◌of_edition◌, ◌seeing_header◌, ◌seeing_wallets◌, ◌seeing_escrows◌, ◌seeing_journal◌};
ghost use Rattle.rules.specs.Numbers.{as_number};
ghost use Rattle.rules.specs.Refusals.{first, operation_refusals};
ghost use Rattle.rules.specs.Wallets.{look_up};
ghost use Rattle.payments.specs.Entries.{Entries};
ghost use Rattle.payments.specs.Recipient.{needs_row};
ghost use Rattle.payments.specs.Sending.{sending_refusals};

use rules::limits::{
    BALANCE, DAILY_CAP, ENTRIES, ESCROWS, FROZEN, GRANTED, IS_FROZEN, JOURNAL_LEN,
    MAX_AMOUNT_MICRO, MAX_GRANTED_MICRO, MAX_HOLD_MS, OPEN, TX_CAP, WALLET_LEN, WALLETS,
};
use rules::refusal::{Refusal, first_of};
use rules::{Edition, Submission, WalletNumber, WalletState};

pub mod sums;

// Whether a recipient needs a wallet row: check 43, for check 37.
fn needs_row(wallets: &[u64], count: usize, id: u64) -> Result<bool, Refusal>
    requires { count * Limits.WALLET_LEN ≤ length wallets.now }
    ensures { result ≡ needs_row (look_up wallets.now count id) }
{
    match rows::numbered::find_wallet(wallets, count, id) {
        WalletState::Missing => Ok(true),
        WalletState::Live(_) => Ok(false),
        WalletState::Closed(_) => Err(Refusal::WalletClosed),
    }
}

// A grant: checks 12, 15, 43, 36, 37, 40, in this order.
pub fn grant_refusal(
    header: &[u64],
    wallets: &[u64],
    journal: &[u64],
    s: Submission,
) -> Result<(), Refusal>
    requires { (Limits.ENTRIES < length header.now) × (get_or header.now Limits.WALLETS 0 * Limits.WALLET_LEN ≤ length wallets.now) × (s.op ≡ Limits.GRANT) }
    ensures { (K : Ledger) → let L = any K seeing_header header seeing_wallets wallets seeing_journal journal in as_number result ≡ first (operation_refusals L.entry s) }
{
    let granted = header[GRANTED];
    let count = header[WALLETS] as usize;
    let entries = header[ENTRIES] as usize;
    let amount_out_of_range = !((1 <= s.amount) & (s.amount <= MAX_AMOUNT_MICRO));
    let recipient_invalid = s.target == 0;
    first_of([
        (amount_out_of_range, Refusal::AmountOutOfRange),
        (recipient_invalid, Refusal::RecipientInvalid),
    ])?;
    let needs_row = needs_row(wallets, count, s.target)?;
    let grant_limit = sums::exceeds(granted, s.amount, MAX_GRANTED_MICRO);
    let wallet_table_full = needs_row & (wallets.len() / WALLET_LEN <= count);
    let journal_table_full = journal.len() / JOURNAL_LEN <= entries;
    first_of([
        (grant_limit, Refusal::GrantLimit),
        (wallet_table_full, Refusal::WalletTableFull),
        (journal_table_full, Refusal::JournalTableFull),
    ])
}

// Checks 43, 17 to 21, 37, 38, 40 of a live sender: those of its recipient, and its limits.
#[tactic(auto, using(rows::proofs::Found::names_found))]
fn sending_refusal(
    edition: Edition,
    header: &[u64],
    wallets: &[u64],
    escrows: &[u64],
    journal: &[u64],
    s: Submission,
    sender: WalletNumber,
) -> Result<(), Refusal>
    requires { (Limits.ENTRIES < length header.now) × (get_or header.now Limits.WALLETS 0 ≤ Limits.MAX_WALLETS) × (get_or header.now Limits.WALLETS 0 * Limits.WALLET_LEN ≤ length wallets.now) × Entries journal.now (get_or header.now Limits.ENTRIES 0) × (s.now ≤ Limits.LAST_TIME_MS) × Sized edition × (sender.0 ≡ row_of wallets.now (get_or header.now Limits.WALLETS 0) s.signer + 1) }
    ensures { (K : Ledger) → let L = any K of_edition edition seeing_header header seeing_wallets wallets seeing_escrows escrows seeing_journal journal in as_number result ≡ first (sending_refusals L.entry s) }
{
    let count = header[WALLETS] as usize;
    let held = header[ESCROWS] as usize;
    let entries = header[ENTRIES] as usize;
    let needs_row = needs_row(wallets, count, s.target)?;
    let opens = s.op == OPEN;
    let balance = rows::numbered::wallet(wallets, sender, BALANCE);
    let tx_cap = rows::numbered::wallet(wallets, sender, TX_CAP);
    let daily_cap = rows::numbered::wallet(wallets, sender, DAILY_CAP);
    let spent = sums::counted(journal, entries, s.signer, s.now);
    let insufficient_balance = balance < s.amount;
    let per_tx_cap_exceeded = tx_cap < s.amount;
    let daily_cap_exceeded = sums::exceeds(s.amount, spent, daily_cap);
    let deadline_past = opens & (s.until <= s.now);
    let deadline_exceeds_max = opens & (s.now + MAX_HOLD_MS < s.until);
    let wallet_table_full = needs_row & (wallets.len() / WALLET_LEN <= count);
    let escrow_table_full = opens & (escrows.len() / edition.escrow <= held);
    let journal_table_full = journal.len() / JOURNAL_LEN <= entries;
    first_of([
        (insufficient_balance, Refusal::InsufficientBalance),
        (per_tx_cap_exceeded, Refusal::PerTxCapExceeded),
        (daily_cap_exceeded, Refusal::DailyCapExceeded),
        (deadline_past, Refusal::EscrowDeadlinePast),
        (deadline_exceeds_max, Refusal::EscrowDeadlineExceedsMax),
        (wallet_table_full, Refusal::WalletTableFull),
        (escrow_table_full, Refusal::EscrowTableFull),
        (journal_table_full, Refusal::JournalTableFull),
    ])
}

// A transfer or an open: checks 12 to 15, 43, 17 to 21, 37, 38, 40, in this order.
#[tactic(auto, using(rules::proofs::Wallets::live_row, rows::proofs::Found::names_found))]
pub fn paying_refusal(
    edition: Edition,
    header: &[u64],
    wallets: &[u64],
    escrows: &[u64],
    journal: &[u64],
    s: Submission,
) -> Result<(), Refusal>
    requires { (Limits.ENTRIES < length header.now) × (get_or header.now Limits.WALLETS 0 ≤ Limits.MAX_WALLETS) × (get_or header.now Limits.WALLETS 0 * Limits.WALLET_LEN ≤ length wallets.now) × Entries journal.now (get_or header.now Limits.ENTRIES 0) × (s.now ≤ Limits.LAST_TIME_MS) × ((s.op ≡ Limits.TRANSFER) ⊎ (s.op ≡ Limits.OPEN)) × Sized edition }
    ensures { (K : Ledger) → let L = any K of_edition edition seeing_header header seeing_wallets wallets seeing_escrows escrows seeing_journal journal in as_number result ≡ first (operation_refusals L.entry s) }
{
    let count = header[WALLETS] as usize;
    let amount_out_of_range = !((1 <= s.amount) & (s.amount <= MAX_AMOUNT_MICRO));
    let recipient_invalid = (s.target == 0) | (s.target == s.signer);
    first_of([(amount_out_of_range, Refusal::AmountOutOfRange)])?;
    match rows::numbered::find_wallet(wallets, count, s.signer) {
        WalletState::Missing => Err(Refusal::SenderNotFound),
        WalletState::Live(sender) => {
            let sender_frozen = rows::numbered::wallet(wallets, sender, FROZEN) == IS_FROZEN;
            first_of([
                (sender_frozen, Refusal::SenderFrozen),
                (recipient_invalid, Refusal::RecipientInvalid),
            ])?;
            sending_refusal(edition, header, wallets, escrows, journal, s, sender)
        },
        // a closed sender is not frozen: an invalid recipient is told first, and then that it is closed
        WalletState::Closed(_) => first_of([
            (recipient_invalid, Refusal::RecipientInvalid),
            (true, Refusal::WalletClosed),
        ]),
    }
}
