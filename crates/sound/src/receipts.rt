// Receipts: a link, times, a flag, a state.
ghost use Rattle.std.specs.Prelude.{◌≡◌, ◌+◌, ◌-◌, ◌*◌, ◌≤◌, length};
ghost use Rattle.rules.specs.Limits;
ghost use Rattle.rules.specs.Table.{all, every};
ghost use Rattle.rules.specs.Sound.{link_right, receipt_tests};
ghost use Rattle.sound.specs.Parts.{receipts_in};

use rules::EscrowNumber;
use rules::limits::{
    ACCEPTANCE_DEADLINE, AUTO_ACCEPT, CLAIMED_AT, FROM, LAPSED, LAST_TIME_MS, PENDING, PROVIDER,
    RECEIPT_CLOSED_AT, RECEIPT_LEN, RECEIPT_LINK, RECEIPT_STATE, REQUESTER, TO,
};

// The row of an escrow's number; for 0 row 0, which is read and not used, so that the test of 0, which no one can foresee, is no branch.
fn row_at(number: EscrowNumber) -> usize
    ensures { result ≡ number.0 - 1 }
{
    number.0.saturating_sub(1) as usize
}

// A link is 0, or a written escrow from the requester to the provider.
fn link_right(e: &[u64], len: usize, m: usize, r: &[u64], k: usize) -> bool
    requires { (m * len ≤ length e.now) × (len ≤ length e.now) × (k * Limits.RECEIPT_LEN + Limits.RECEIPT_LEN ≤ length r.now) × (Limits.ESCROW_LEN ≤ len) }
    ensures { result ≡ link_right (receipts_in len e.now m r.now) k }
{
    let at = k * RECEIPT_LEN;
    let link = r[at + RECEIPT_LINK];
    if m < link as usize {
        return false;
    }
    let row = row_at(EscrowNumber(link));
    (link == 0)
        | ((e[row * len + FROM] == r[at + REQUESTER]) & (e[row * len + TO] == r[at + PROVIDER]))
}

fn receipt_right(e: &[u64], len: usize, m: usize, r: &[u64], k: usize) -> bool
    requires { (m * len ≤ length e.now) × (len ≤ length e.now) × (k * Limits.RECEIPT_LEN + Limits.RECEIPT_LEN ≤ length r.now) × (Limits.ESCROW_LEN ≤ len) }
    ensures { result ≡ all (receipt_tests (receipts_in len e.now m r.now) k) }
{
    let link = link_right(e, len, m, r, k);
    let at = k * RECEIPT_LEN;
    let state = r[at + RECEIPT_STATE];
    link & ((r[at + ACCEPTANCE_DEADLINE] <= LAST_TIME_MS)
        & ((r[at + CLAIMED_AT] <= LAST_TIME_MS)
            & ((r[at + RECEIPT_CLOSED_AT] <= LAST_TIME_MS)
                & ((r[at + AUTO_ACCEPT] <= 1) & ((PENDING <= state) & (state <= LAPSED))))))
}

pub fn receipts_right(e: &[u64], len: usize, m: usize, r: &[u64], p: usize) -> bool
    requires { (m * len ≤ length e.now) × (len ≤ length e.now) × (p * Limits.RECEIPT_LEN ≤ length r.now) × (Limits.ESCROW_LEN ≤ len) }
    ensures { result ≡ every p (λ i. all (receipt_tests (receipts_in len e.now m r.now) i)) }
{
    (0..p).all(|k| receipt_right(e, len, m, r, k))
}
