// Sums that mean whole numbers: they never wrap.
ghost use Rattle.std.specs.Prelude.{◌≡◌, ◌+◌, ltb};
ghost use Rattle.payments.specs.Entries.{Entries};
ghost use Rattle.rules.specs.Refusals.{counted_of};

use rules::limits::{
    DAY_MS, ENTRY_AMOUNT, JOURNAL_LEN, OPEN, OPERATION, SETTLED_AT, SIGNER, TRANSFER,
};

// Whether a + b is more than the cap, for any words: the sum itself might not fit.
pub fn exceeds(a: u64, b: u64, cap: u64) -> bool
    ensures { result ≡ ltb cap (a + b) }
{
    a.checked_add(b).is_none_or(|sum| cap < sum)
}

// The amounts of the signer's transfers and opens, of the first n journal rows, that are not older than 24 hours at the clock. The rows
// alone decide: what an open held counts, whatever became of its escrow. Which operations pay is written out, as the definition's list
// computes to it.
pub fn counted(journal: &[u64], n: usize, signer: u64, clock: u64) -> u64
    requires { Entries journal.now n }
    ensures { result ≡ counted_of journal.now n signer clock }
{
    let mut sum = 0;
    for i in 0..n {
        let at = i * JOURNAL_LEN;
        let recent = clock <= journal[at + SETTLED_AT] + DAY_MS;
        let operation = journal[at + OPERATION];
        let pays = (operation == u64::from(TRANSFER)) | (operation == u64::from(OPEN));
        let counts = (journal[at + SIGNER] == signer) & (pays & recent);
        sum += rows::choose(counts, journal[at + ENTRY_AMOUNT], 0);
    }
    sum
}
