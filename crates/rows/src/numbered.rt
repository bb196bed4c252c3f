// Words of a row by the row's number, counted from 1. Wallets, escrows and receipts are numbered apart, each by a type of its own, so none is
// looked up or closed in the place of another. A read and a write for each, over one `get` and one `set`: the length of an escrow's row is the
// edition's, so one generic of the three would ask for an edition where a wallet or a receipt is read.
ghost use Rattle.std.specs.Prelude.{◌≡◌, ◌-◌, ◌*◌, ◌<◌, ◌≤◌, ◌^◌, length};
ghost use Rattle.rules.specs.Limits;
ghost use Rattle.rules.specs.Table.{word, put};
ghost use Rattle.rules.specs.Wallets.{look_up};
ghost use Rattle.rows.specs.Numbered.{Names};

use rules::limits::{FROZEN, IS_CLOSED, RECEIPT_LEN, WALLET_LEN};
use rules::{Edition, EscrowNumber, ReceiptNumber, WalletNumber, WalletState};

// Looks up the wallet of an id among n written ones: missing, or live or closed and its number. No other place reads the word for closed.
pub fn find_wallet(wallets: &[u64], n: usize, id: u64) -> WalletState
    requires { n * Limits.WALLET_LEN ≤ length wallets.now }
    ensures { result ≡ look_up wallets.now n id }
{
    let row = crate::find_row(wallets, n, id);
    if n <= row {
        return WalletState::Missing;
    }
    // `as`, since std has no `From` between u64 and usize; both have 64 bits.
    let number = WalletNumber(row as u64 + 1);
    if wallets[row * WALLET_LEN + FROZEN] == IS_CLOSED {
        return WalletState::Closed(number);
    }
    WalletState::Live(number)
}

// Word k of a wallet; 0 past the end.
pub fn wallet(wallets: &[u64], number: WalletNumber, k: usize) -> u64
    requires { Names number.0 × (k < 2 ^ 16) }
    ensures { result ≡ word wallets.now Limits.WALLET_LEN (number.0 - 1) k }
{
    crate::get(wallets, WALLET_LEN, (number.0 - 1) as usize, k)
}

// Word k of an escrow.
pub fn escrow(edition: Edition, escrows: &[u64], number: EscrowNumber, k: usize) -> u64
    requires { Names number.0 × (edition.escrow < 2 ^ 16) × (k < 2 ^ 16) }
    ensures { result ≡ word escrows.now edition.escrow (number.0 - 1) k }
{
    crate::get(escrows, edition.escrow, (number.0 - 1) as usize, k)
}

// Word k of a receipt.
pub fn receipt(receipts: &[u64], number: ReceiptNumber, k: usize) -> u64
    requires { Names number.0 × (k < 2 ^ 16) }
    ensures { result ≡ word receipts.now Limits.RECEIPT_LEN (number.0 - 1) k }
{
    crate::get(receipts, RECEIPT_LEN, (number.0 - 1) as usize, k)
}

// v at word k of a wallet; nothing past the end.
pub fn set_wallet(wallets: &mut [u64], number: WalletNumber, k: usize, v: u64)
    requires { Names number.0 × (k < 2 ^ 16) }
    ensures { wallets.new ≡ put wallets.old Limits.WALLET_LEN (number.0 - 1) k v }
{
    crate::set(wallets, WALLET_LEN, (number.0 - 1) as usize, k, v);
}

// v at word k of an escrow.
pub fn set_escrow(edition: Edition, escrows: &mut [u64], number: EscrowNumber, k: usize, v: u64)
    requires { Names number.0 × (edition.escrow < 2 ^ 16) × (k < 2 ^ 16) }
    ensures { escrows.new ≡ put escrows.old edition.escrow (number.0 - 1) k v }
{
    crate::set(escrows, edition.escrow, (number.0 - 1) as usize, k, v);
}

// v at word k of a receipt.
pub fn set_receipt(receipts: &mut [u64], number: ReceiptNumber, k: usize, v: u64)
    requires { Names number.0 × (k < 2 ^ 16) }
    ensures { receipts.new ≡ put receipts.old Limits.RECEIPT_LEN (number.0 - 1) k v }
{
    crate::set(receipts, RECEIPT_LEN, (number.0 - 1) as usize, k, v);
}
