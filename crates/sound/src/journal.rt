// Journal rows: a time, and an amount for transfers and opened escrows.
ghost use Rattle.std.specs.Prelude.{◌≡◌, ◌+◌, ◌*◌, ◌≤◌, length};
ghost use Rattle.rules.specs.Limits;
ghost use Rattle.rules.specs.Table.{all, every};
ghost use Rattle.rules.specs.Sound.{entry_tests};
ghost use Rattle.sound.specs.Parts.{entries_in};

use rules::limits::{
    ENTRY_AMOUNT, JOURNAL_LEN, LAST_TIME_MS, MAX_AMOUNT_MICRO, OPEN, OPERATION, SETTLED_AT,
    TRANSFER,
};

// Transfers and opens have an amount that is held to its limits; they are written out, as the definition has them.
fn entry_right(j: &[u64], k: usize) -> bool
    requires { k * Limits.JOURNAL_LEN + Limits.JOURNAL_LEN ≤ length j.now }
    ensures { result ≡ all (entry_tests (entries_in j.now) k) }
{
    let at = k * JOURNAL_LEN;
    let op = j[at + OPERATION];
    let amount = j[at + ENTRY_AMOUNT];
    (j[at + SETTLED_AT] <= LAST_TIME_MS)
        & (!((op == u64::from(TRANSFER)) | (op == u64::from(OPEN)))
            | ((1 <= amount) & (amount <= MAX_AMOUNT_MICRO)))
}

pub fn entries_right(j: &[u64], q: usize) -> bool
    requires { q * Limits.JOURNAL_LEN ≤ length j.now }
    ensures { result ≡ every q (λ i. all (entry_tests (entries_in j.now) i)) }
{
    (0..q).all(|k| entry_right(j, k))
}
