// Row lookups: that very row of the caller's table, or an empty part; and the search for a wallet.
ghost use Rattle.std.specs.Prelude.{◌≡◌};
ghost use Rattle.rules.specs.Ledger.{first_edition};
ghost use Rattle.rules.specs.Lookup.{escrow_place, escrow_part, receipt_place, receipt_part, wallet_state};
ghost use Rattle.rows.specs.Part.{placed};

use rules::{EscrowNumber, FIRST, ReceiptNumber, WalletState};

// Where an escrow's row starts in the table, in words; the table's length where it is not written, as C is told it.
pub fn escrow_place(header: &[u64], escrows: &[u64], n: EscrowNumber) -> usize
    ensures { result ≡ escrow_place first_edition header.now escrows.now n.0 }
{
    looking::escrow_place(FIRST, header, escrows, n)
}

// The same of a receipt.
pub fn receipt_place(header: &[u64], receipts: &[u64], n: ReceiptNumber) -> usize
    ensures { result ≡ receipt_place first_edition header.now receipts.now n.0 }
{
    looking::receipt_place(FIRST, header, receipts, n)
}

// That very row of an escrow, or an empty part.
pub fn escrow_row<'a>(header: &[u64], escrows: &'a [u64], n: EscrowNumber) -> &'a [u64]
    ensures { (result.now ≡ escrow_part first_edition header.now escrows.now n.0)
        × (result.ref_ptr ≡ placed escrows.entry.ref_ptr (escrow_place first_edition header.now escrows.now n.0)) }
{
    looking::escrow_row(FIRST, header, escrows, n)
}

// That very row of a receipt, or an empty part.
pub fn receipt_row<'a>(header: &[u64], receipts: &'a [u64], n: ReceiptNumber) -> &'a [u64]
    ensures { (result.now ≡ receipt_part first_edition header.now receipts.now n.0)
        × (result.ref_ptr ≡ placed receipts.entry.ref_ptr (receipt_place first_edition header.now receipts.now n.0)) }
{
    looking::receipt_row(FIRST, header, receipts, n)
}

// The wallet of an id: missing, or live or closed and its number.
pub fn wallet_row(header: &[u64], wallets: &[u64], id: u64) -> WalletState
    ensures { result ≡ wallet_state first_edition header.now wallets.now id }
{
    looking::wallet_row(FIRST, header, wallets, id)
}
