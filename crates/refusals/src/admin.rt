// Checks 12 to 43 of the operations that move no credits by themselves: sweep, freeze, caps and close. Each is lent only the tables that it looks
// at: so its contract says that no other table decides it.
// A one-line test (a full table) is written out: it computes to the definition's own, and a call would have to be cited.
// The header is asked to have the words that are read, and no more (`ENTRIES < length header`), as a check needs no sound ledger.
ghost use Rattle.std.specs.Prelude.{◌≡◌, ◌&&◌, ◌+◌, ◌*◌, ◌≤◌, ◌<◌, eqb, get_or, length};
ghost use Rattle.rules.specs.Limits;
ghost use Rattle.rules.specs.Table.{word};
ghost use Rattle.rules.specs.Ledger.{Ledger, Sized};
ghost use Rattle.rules.specs.Moments.{any, ◌of_edition◌, ◌seeing_header◌, ◌seeing_wallets◌, ◌seeing_escrows◌, ◌seeing_journal◌};
ghost use Rattle.rules.specs.Numbers.{as_number};
ghost use Rattle.rules.specs.Refusals.{first, operation_refusals};
ghost use Rattle.rules.specs.Wallets.{open_to};

use rules::limits::{
    BALANCE, ENTRIES, ESCROW_STATE, ESCROWS, IS_OPEN, JOURNAL_LEN, LOCKED, MAX_AMOUNT_MICRO,
    MAX_SWEEP_ROWS, TO, WALLETS,
};
use rules::refusal::{Refusal, first_of};
use rules::{Edition, Submission, WalletState};

// A sweep: check 12, of its limit.
pub fn sweep_refusal(s: Submission) -> Result<(), Refusal>
    requires { s.op ≡ Limits.SWEEP }
    ensures { (L : Ledger) → as_number result ≡ first (operation_refusals L s) }
{
    let amount_out_of_range = !((1 <= s.amount) & (s.amount <= MAX_SWEEP_ROWS));
    first_of([(amount_out_of_range, Refusal::AmountOutOfRange)])
}

// A freeze: checks 16, 43, 40, in this order. Target 0 is the system.
pub fn freeze_refusal(
    header: &[u64],
    wallets: &[u64],
    journal: &[u64],
    s: Submission,
) -> Result<(), Refusal>
    requires { (Limits.ENTRIES < length header.now) × (get_or header.now Limits.WALLETS 0 * Limits.WALLET_LEN ≤ length wallets.now) × (s.op ≡ Limits.FREEZE) }
    ensures { (K : Ledger) → let L = any K seeing_header header seeing_wallets wallets seeing_journal journal in as_number result ≡ first (operation_refusals L.entry s) }
{
    let count = header[WALLETS] as usize;
    let entries = header[ENTRIES] as usize;
    let journal_table_full = journal.len() / JOURNAL_LEN <= entries;
    match rows::numbered::find_wallet(wallets, count, s.target) {
        WalletState::Missing => first_of([
            (s.target != 0, Refusal::WalletNotFound),
            (journal_table_full, Refusal::JournalTableFull),
        ]),
        WalletState::Live(_) => first_of([(journal_table_full, Refusal::JournalTableFull)]),
        WalletState::Closed(_) => Err(Refusal::WalletClosed),
    }
}

// New caps: checks 12, 16, 43, 40, in this order.
pub fn caps_refusal(
    header: &[u64],
    wallets: &[u64],
    journal: &[u64],
    s: Submission,
) -> Result<(), Refusal>
    requires { (Limits.ENTRIES < length header.now) × (get_or header.now Limits.WALLETS 0 * Limits.WALLET_LEN ≤ length wallets.now) × (s.op ≡ Limits.CAPS) }
    ensures { (K : Ledger) → let L = any K seeing_header header seeing_wallets wallets seeing_journal journal in as_number result ≡ first (operation_refusals L.entry s) }
{
    let count = header[WALLETS] as usize;
    let entries = header[ENTRIES] as usize;
    let amount_out_of_range = (MAX_AMOUNT_MICRO < s.amount) | (MAX_AMOUNT_MICRO < s.link);
    let journal_table_full = journal.len() / JOURNAL_LEN <= entries;
    first_of([(amount_out_of_range, Refusal::AmountOutOfRange)])?;
    match rows::numbered::find_wallet(wallets, count, s.target) {
        WalletState::Missing => Err(Refusal::WalletNotFound),
        WalletState::Live(_) => first_of([(journal_table_full, Refusal::JournalTableFull)]),
        WalletState::Closed(_) => Err(Refusal::WalletClosed),
    }
}

// Whether the escrow in row i is to an id, and open.
fn opens_to(escrows: &[u64], len: usize, i: usize, id: u64) -> bool
    requires { (i * len + len ≤ length escrows.now) × (Limits.ESCROW_LEN ≤ len) }
    ensures { result ≡ (eqb (word escrows.now len i Limits.TO) id && eqb (word escrows.now len i Limits.ESCROW_STATE) Limits.IS_OPEN) }
{
    (escrows[i * len + TO] == id) & (escrows[i * len + ESCROW_STATE] == IS_OPEN)
}

// Whether one of the first n escrows to an id is open, stale or not. A fold, which looks at every row, and not `any`: that ends at a row, and the
// branches to it are guessed wrong where many of the rows are to the id, in no order.
fn open_to(escrows: &[u64], len: usize, n: usize, id: u64) -> bool
    requires { (n * len ≤ length escrows.now) × (Limits.ESCROW_LEN ≤ len) }
    ensures { result ≡ open_to len escrows.now n id }
{
    (0..n).fold(false, |found, i| found | opens_to(escrows, len, i, id))
}

// A close: checks 16, 43, 42, 40, in this order.
#[tactic(auto, using(rules::proofs::Wallets::live_row, rows::proofs::Found::names_found))]
pub fn close_refusal(
    edition: Edition,
    header: &[u64],
    wallets: &[u64],
    escrows: &[u64],
    journal: &[u64],
    s: Submission,
) -> Result<(), Refusal>
    requires { (Limits.ENTRIES < length header.now) × (get_or header.now Limits.WALLETS 0 ≤ Limits.MAX_WALLETS) × (get_or header.now Limits.WALLETS 0 * Limits.WALLET_LEN ≤ length wallets.now) × (get_or header.now Limits.ESCROWS 0 * edition.escrow ≤ length escrows.now) × (s.op ≡ Limits.CLOSE) × Sized edition }
    ensures { (K : Ledger) → let L = any K of_edition edition seeing_header header seeing_wallets wallets seeing_escrows escrows seeing_journal journal in as_number result ≡ first (operation_refusals L.entry s) }
{
    let count = header[WALLETS] as usize;
    let held = header[ESCROWS] as usize;
    let entries = header[ENTRIES] as usize;
    match rows::numbered::find_wallet(wallets, count, s.target) {
        WalletState::Missing => Err(Refusal::WalletNotFound),
        WalletState::Live(number) => {
            let balance = rows::numbered::wallet(wallets, number, BALANCE);
            let locked = rows::numbered::wallet(wallets, number, LOCKED);
            let expects = open_to(escrows, edition.escrow, held, s.target);
            let not_empty = (0 < balance) | ((0 < locked) | expects);
            let journal_table_full = journal.len() / JOURNAL_LEN <= entries;
            first_of([
                (not_empty, Refusal::WalletNotEmpty),
                (journal_table_full, Refusal::JournalTableFull),
            ])
        },
        WalletState::Closed(_) => Err(Refusal::WalletClosed),
    }
}
