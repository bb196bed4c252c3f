// Wallets by themselves, and all credits together.
ghost use Rattle.std.specs.Prelude.{◌≡◌, ◌&&◌, ◌+◌, ◌*◌, ◌≤◌, eqb, leb, length};
ghost use Rattle.rules.specs.Limits;
ghost use Rattle.rules.specs.Table.{all, every};
ghost use Rattle.rules.specs.Sound.{wallet_tests, credits};
ghost use Rattle.sound.specs.Parts.{wallets_in};

use rules::limits::{BALANCE, FROZEN, ID, IS_CLOSED, LOCKED, MAX_GRANTED_MICRO, WALLET_LEN};

// An id, and a frozen word that says 0, 1 or, closed, 2.
fn wallet_right(w: &[u64], i: usize) -> bool
    requires { i * Limits.WALLET_LEN + Limits.WALLET_LEN ≤ length w.now }
    ensures { result ≡ all (wallet_tests (wallets_in w.now 0) i) }
{
    (w[i * WALLET_LEN + ID] != 0) & (w[i * WALLET_LEN + FROZEN] <= IS_CLOSED)
}

// A table is lent whole, and the header counts its written rows, so a function takes both.
pub fn wallets_right(w: &[u64], n: usize) -> bool
    requires { n * Limits.WALLET_LEN ≤ length w.now }
    ensures { result ≡ every n (λ i. all (wallet_tests (wallets_in w.now n) i)) }
{
    (0..n).all(|i| wallet_right(w, i))
}

// Balances and locked together are the granted total, which is within its limit. What is left of it counts down, so that nothing wraps.
pub fn total_right(w: &[u64], n: usize, granted: u64) -> bool
    requires { n * Limits.WALLET_LEN ≤ length w.now }
    ensures { result ≡ (eqb (credits (wallets_in w.now n)) granted && leb granted Limits.MAX_GRANTED_MICRO) }
{
    if MAX_GRANTED_MICRO < granted {
        return false;
    }
    let mut left = granted;
    for i in 0..n {
        let Some(rest) = left.checked_sub(w[i * WALLET_LEN + BALANCE]) else {
            return false;
        };
        let Some(rest) = rest.checked_sub(w[i * WALLET_LEN + LOCKED]) else {
            return false;
        };
        left = rest;
    }
    left == 0
}
