// Escrows: each by itself, its two wallets, and each wallet's locked as the sum of its open escrows.
ghost use Rattle.std.specs.Prelude.{◌≡◌, true, cond, ◌+◌, ◌*◌, ◌≤◌, eqb, length};
ghost use Rattle.rules.specs.Limits;
ghost use Rattle.rules.specs.Table.{word, all, every};
ghost use Rattle.rules.specs.Sound.{escrow_alone_tests};
ghost use Rattle.index.specs.Index.{Indexed};
ghost use Rattle.sound.specs.Parts.{parties, Tables, Held, HeldAll, locked_is, parties_right};

use index::{NUMBERS, PLACES};
use rules::limits::{
    ESCROW_AMOUNT, ESCROW_CLOSED_AT, ESCROW_DEADLINE, ESCROW_STATE, EXPIRED, FROM, IS_OPEN,
    LAST_TIME_MS, LOCKED, MAX_AMOUNT_MICRO, OPENED_AT, TO, WALLET_LEN,
};

// What an escrow's own row shows.
fn escrow_right(e: &[u64], len: usize, k: usize) -> bool
    requires { (k * len + len ≤ length e.now) × (Limits.ESCROW_LEN ≤ len) }
    ensures { result ≡ all (escrow_alone_tests (parties len e.now 0 e.now 0) k) }
{
    let at = k * len;
    let amount = e[at + ESCROW_AMOUNT];
    let state = e[at + ESCROW_STATE];
    (e[at + FROM] != e[at + TO])
        & (((1 <= amount) & (amount <= MAX_AMOUNT_MICRO))
            & ((e[at + ESCROW_DEADLINE] <= LAST_TIME_MS)
                & ((e[at + OPENED_AT] <= LAST_TIME_MS)
                    & ((e[at + ESCROW_CLOSED_AT] <= LAST_TIME_MS)
                        & ((IS_OPEN <= state) & (state <= EXPIRED))))))
}

// What an escrow holds of its sender.
fn held_in(e: &[u64], len: usize, k: usize) -> u64
    requires { (k * len + len ≤ length e.now) × (Limits.ESCROW_LEN ≤ len) }
    ensures { result ≡ cond (eqb (word e.now len k Limits.ESCROW_STATE) Limits.IS_OPEN) (word e.now len k Limits.ESCROW_AMOUNT) 0 }
{
    if e[k * len + ESCROW_STATE] == IS_OPEN {
        e[k * len + ESCROW_AMOUNT]
    } else {
        0
    }
}

// Whether every escrow is right; if so, what the escrows hold of each wallet is added to `sums`, by the wallet's number.
fn hold_all(
    w: &[u64],
    ids: &[u64; NUMBERS],
    t: &[u16; PLACES],
    n: usize,
    most: usize,
    e: &[u64],
    len: usize,
    m: usize,
    sums: &mut [u64; NUMBERS],
) -> bool
    requires { Tables len w.now n e.now m × Indexed w.now n ids.now t.now × Held len w.now n e.now 0 sums.old }
    ensures { HeldAll len w.now n e.now m sums.new result }
{
    for k in 0..m {
        if !escrow_right(e, len, k) {
            return false;
        }
        let Some(from) = index::sender(w, ids, t, n, most, e[k * len + FROM], e[k * len + TO])
        else {
            return false;
        };
        sums[from.0 as usize] += held_in(e, len, k);
    }
    true
}

// Whether each wallet's locked is its sum.
fn locked_right(w: &[u64], n: usize, sums: &[u64; NUMBERS]) -> bool
    requires { (n * Limits.WALLET_LEN ≤ length w.now) × (n ≤ Limits.MAX_WALLETS) }
    ensures { result ≡ every n (locked_is w.now sums.now) }
{
    (0..n).all(|i| w[i * WALLET_LEN + LOCKED] == sums[i + 1])
}

// Whether ids differ, each escrow names two different written wallets and is right by itself, and each wallet's locked is what its open
// escrows hold.
pub fn parties_right(w: &[u64], n: usize, e: &[u64], len: usize, m: usize) -> bool
    requires { Tables len w.now n e.now m }
    ensures { result ≡ parties_right len w.now n e.now m }
{
    // `ids`, `t` and `sums` have lengths that are fixed: nothing is allocated
    let mut ids = [0u64; NUMBERS];
    index::copy_ids(w, n, &mut ids);
    let mut t = [0u16; PLACES];
    let Some(most) = index::fill(&ids, &mut t, n) else {
        return false;
    };
    let mut sums = [0u64; NUMBERS];
    if !hold_all(w, &ids, &t, n, most, e, len, m, &mut sums) {
        return false;
    }
    locked_right(w, n, &sums)
}
