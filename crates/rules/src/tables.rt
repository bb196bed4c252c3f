// The five lent tables, seen together.
use crate::Edition;

// A ledger that is only read: its edition, and the slices that are lent.
#[derive(Clone, Copy)]
pub struct Tables<'a> {
    pub edition: Edition,
    pub header: &'a [u64],
    pub wallets: &'a [u64],
    pub escrows: &'a [u64],
    pub receipts: &'a [u64],
    pub journal: &'a [u64],
}
