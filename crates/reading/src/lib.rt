// The journal read once, the newest row first: whether its rows are right, whether signer and nonce were used, and what the daily cap
// counts of the signer. No branch of the loop depends on who signed a row or what it did, so that no journal makes it slower; what a row
// adds is chosen. The choices are written so that the compiler makes conditional moves of them: where any number but 0 would do,
// n stands, of which it knows nothing. Which operations pay is written out, as the definition's list computes to it.
#![tactic(auto)]

ghost use Rattle.std.specs.Prelude.{◌≡◌, cond, ◌&&◌, ◌||◌, ◌+◌, ◌-◌, ◌*◌, ◌≤◌, eqb, leb, get_or, length};
ghost use Rattle.rules.specs.Limits;
ghost use Rattle.rules.specs.Table.{all, every};
ghost use Rattle.rules.specs.Sound.{entry_tests};
ghost use Rattle.rules.specs.Refusals.{seen_in, counted_of};
ghost use Rattle.reading.specs.Looks.{entries_in, looked};

use rules::limits::{
    DAY_MS, ENTRY_AMOUNT, JOURNAL_LEN, LAST_TIME_MS, MAX_AMOUNT_MICRO, NONCE, OPEN, OPERATION,
    SETTLED_AT, SIGNER, TRANSFER,
};

// What is said of rows that are right: whether the nonce was used, and what the daily cap counts.
#[derive(Clone, Copy)]
pub struct Looked {
    pub used: bool,
    pub spent: u64,
}

// The amount of the row that starts at a place, if it is a transfer or an open; `other` of any other row.
fn paid(journal: &[u64], at: usize, other: u64) -> u64
    requires { at + Limits.JOURNAL_LEN ≤ length journal.now }
    ensures { result ≡ cond (eqb (get_or journal.now (at + Limits.OPERATION) 0) Limits.TRANSFER || eqb (get_or journal.now (at + Limits.OPERATION) 0) Limits.OPEN) (get_or journal.now (at + Limits.ENTRY_AMOUNT) 0) other }
{
    let operation = journal[at + OPERATION];
    rows::choose(
        (operation == u64::from(TRANSFER)) | (operation == u64::from(OPEN)),
        journal[at + ENTRY_AMOUNT],
        other,
    )
}

// Whether that row has signer and nonce.
fn uses(journal: &[u64], at: usize, signer: u64, nonce: u64) -> bool
    requires { at + Limits.JOURNAL_LEN ≤ length journal.now }
    ensures { result ≡ (eqb (get_or journal.now (at + Limits.SIGNER) 0) signer && eqb (get_or journal.now (at + Limits.NONCE) 0) nonce) }
{
    (journal[at + SIGNER] == signer) & (journal[at + NONCE] == nonce)
}

// What that row adds to the signer's day: what it paid, if the signer did so since then.
fn spends(journal: &[u64], at: usize, signer: u64, since: u64, paid: u64) -> u64
    requires { at + Limits.JOURNAL_LEN ≤ length journal.now }
    ensures { result ≡ cond (eqb (get_or journal.now (at + Limits.SIGNER) 0) signer && leb since (get_or journal.now (at + Limits.SETTLED_AT) 0)) paid 0 }
{
    rows::choose(
        (journal[at + SIGNER] == signer) & (since <= journal[at + SETTLED_AT]),
        paid,
        0,
    )
}

// Reads the first n rows; `None` if one of them is not right.
pub fn look(journal: &[u64], n: usize, signer: u64, nonce: u64, clock: u64) -> Option<Looked>
    requires { (n * Limits.JOURNAL_LEN ≤ length journal.now) × (n ≤ Limits.MAX_ENTRIES) }
    ensures { result ≡ looked (every n (λ i. all (entry_tests (entries_in journal.now) i))) (seen_in journal.now n signer nonce) (counted_of journal.now n signer clock) }
{
    // the earliest time that is not older than 24 hours
    let since = clock.saturating_sub(DAY_MS);
    let mut times = 0;
    let mut found = 0;
    let mut spent = 0;
    for row in (0..n).rev() {
        let at = row * JOURNAL_LEN;
        let amount = paid(journal, at, 0);
        // of a row that does not pay, n: it is 0 just if the row pays nothing
        if (paid(journal, at, n as u64) == 0) | (MAX_AMOUNT_MICRO < amount) {
            return None;
        }
        // the last time is 2^48 - 1: one of them is later just if a higher bit is set in them together
        times |= journal[at + SETTLED_AT];
        found = rows::choose(uses(journal, at, signer, nonce), n as u64, found);
        spent += spends(journal, at, signer, since, amount);
    }
    if LAST_TIME_MS < times {
        return None;
    }
    Some(Looked {
        used: 0 < found,
        spent,
    })
}
