// Row lookups: that very row of the caller's table, or an empty part; and the search for a wallet. Escrows and receipts have a call each over one
// `rows::row_place` and one `rows::row_part`: what is left is the kind of number, and the words and lengths that the paper gives each table.
#![tactic(auto)]

ghost use Rattle.std.specs.Prelude.{◌≡◌};
ghost use Rattle.rules.specs.Ledger.{Sized};
ghost use Rattle.rules.specs.Lookup.{escrow_place, escrow_part, receipt_place, receipt_part, wallet_state};
ghost use Rattle.rows.specs.Part.{placed};

use rules::limits::{
    ESCROWS, MAX_ESCROWS, MAX_RECEIPTS, MAX_WALLETS, RECEIPT_LEN, RECEIPTS, WALLET_LEN, WALLETS,
};
use rules::{Edition, EscrowNumber, ReceiptNumber, WalletState};

// Where an escrow's row starts in the table, in words; the table's length where it is not written, as `escrow_place` of
// Lookup.antt has it and as C is told it.
pub fn escrow_place(edition: Edition, header: &[u64], escrows: &[u64], n: EscrowNumber) -> usize
    requires { Sized edition }
    ensures { result ≡ escrow_place edition header.now escrows.now n.0 }
{
    rows::row_place(
        header,
        escrows,
        edition.header,
        ESCROWS,
        edition.escrow,
        MAX_ESCROWS,
        n.0,
    )
}

// The same of a receipt.
pub fn receipt_place(edition: Edition, header: &[u64], receipts: &[u64], n: ReceiptNumber) -> usize
    ensures { result ≡ receipt_place edition header.now receipts.now n.0 }
{
    rows::row_place(
        header,
        receipts,
        edition.header,
        RECEIPTS,
        RECEIPT_LEN,
        MAX_RECEIPTS,
        n.0,
    )
}

// That very row of an escrow, or an empty part.
pub fn escrow_row<'a>(
    edition: Edition,
    header: &[u64],
    escrows: &'a [u64],
    n: EscrowNumber,
) -> &'a [u64]
    requires { Sized edition }
    ensures { (result.now ≡ escrow_part edition header.now escrows.now n.0)
        × (result.ref_ptr ≡ placed escrows.entry.ref_ptr (escrow_place edition header.now escrows.now n.0)) }
{
    let place = escrow_place(edition, header, escrows, n);
    rows::row_part(escrows, edition.escrow, place)
}

// That very row of a receipt, or an empty part.
pub fn receipt_row<'a>(
    edition: Edition,
    header: &[u64],
    receipts: &'a [u64],
    n: ReceiptNumber,
) -> &'a [u64]
    ensures { (result.now ≡ receipt_part edition header.now receipts.now n.0)
        × (result.ref_ptr ≡ placed receipts.entry.ref_ptr (receipt_place edition header.now receipts.now n.0)) }
{
    let place = receipt_place(edition, header, receipts, n);
    rows::row_part(receipts, RECEIPT_LEN, place)
}

// The wallet of an id: missing, or live or closed and its number. A closed one is told from a missing one, and from a live one.
pub fn wallet_row(edition: Edition, header: &[u64], wallets: &[u64], id: u64) -> WalletState
    ensures { result ≡ wallet_state edition header.now wallets.now id }
{
    let right = rows::count_right(
        header,
        wallets,
        edition.header,
        WALLETS,
        WALLET_LEN,
        MAX_WALLETS,
    );
    if !right | (id == 0) {
        return WalletState::Missing;
    }
    // `as`, since std has no `From` between u64 and usize; both have 64 bits.
    let n = rows::at(header, WALLETS) as usize;
    rows::numbered::find_wallet(wallets, n, id)
}
