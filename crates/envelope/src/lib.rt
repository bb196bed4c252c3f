// Checks 4 to 11: the clock, the system, the envelope and its nonce. Header and journal alone are lent: so the contract says that no other table
// decides them.
// A one-line test (a flag's bit, an operation's byte) is written out: it computes to the definition's own, and a call would have to be cited.
// The header is asked to have the words that are read, and no more (`ENTRIES < length header`), as a check needs no sound ledger.
#![tactic(auto)]

ghost use Rattle.std.specs.Prelude.{◌≡◌, ◌*◌, ◌≤◌, ◌<◌, get_or, length};
ghost use Rattle.rules.specs.Limits;
ghost use Rattle.rules.specs.Ledger.{Ledger};
ghost use Rattle.rules.specs.Moments.{any, ◌seeing_header◌, ◌seeing_journal◌};
ghost use Rattle.rules.specs.Numbers.{as_number};
ghost use Rattle.rules.specs.Refusals.{first, seen_in, envelope_refusals};

use rules::Submission;
use rules::limits::{
    ADMIN, CAPS, CLOCK, CLOSE, ENTRIES, FREEZE, GRANT, JOURNAL_LEN, MAX_ENVELOPE_MS, MAX_SKEW_MS,
    NONCE, SIGNATURE_HELD, SIGNER, SWEEP, SYSTEM_FROZEN,
};
use rules::refusal::{Refusal, first_of};

// Whether one of the first n journal rows has signer and nonce. The newest is looked at first, as nearly every retry comes within a minute.
pub fn seen(journal: &[u64], n: usize, signer: u64, nonce: u64) -> bool
    requires { n * Limits.JOURNAL_LEN ≤ length journal.now }
    ensures { result ≡ seen_in journal.now n signer nonce }
{
    // no return from the loop, nor a `for` with a break, nor `any`: with one, the compiler puts a branch between the two comparisons, and it is
    // guessed wrong where a signer has many rows
    let mut found = false;
    let mut i = n;
    while (0 < i) & !found {
        i -= 1;
        found = (journal[i * JOURNAL_LEN + SIGNER] == signer)
            & (journal[i * JOURNAL_LEN + NONCE] == nonce);
    }
    found
}

// The first of checks 4 to 11 that holds.
pub fn envelope_refusal(header: &[u64], journal: &[u64], s: Submission) -> Result<(), Refusal>
    requires { (Limits.ENTRIES < length header.now) × (get_or header.now Limits.ENTRIES 0 * Limits.JOURNAL_LEN ≤ length journal.now) × (1 ≤ s.op) × (s.op ≤ Limits.LAST_OPERATION) × (s.now ≤ Limits.LAST_TIME_MS) × (s.issued ≤ Limits.LAST_TIME_MS) }
    ensures { (K : Ledger) → let L = any K seeing_header header seeing_journal journal in as_number result ≡ first (envelope_refusals L.entry s) }
{
    // a sweep has no envelope
    let signed = s.op != SWEEP;
    let for_admins = (s.op == GRANT) | ((s.op == FREEZE) | ((s.op == CAPS) | (s.op == CLOSE)));
    let clock_back = s.now < header[CLOCK];
    let system_frozen = ((GRANT <= s.op) & (s.op <= SWEEP)) & (header[SYSTEM_FROZEN] == 1);
    let invalid_signature = signed & (s.flags / SIGNATURE_HELD % 2 == 0);
    let not_admin = for_admins & (s.flags / ADMIN % 2 == 0);
    let not_yet_valid = signed & (s.now + MAX_SKEW_MS < s.issued);
    let expired = signed & (s.expires < s.now);
    let window_too_long = signed & (s.issued + MAX_ENVELOPE_MS < s.expires);
    let nonce_seen = signed & seen(journal, header[ENTRIES] as usize, s.signer, s.nonce);
    first_of([
        (clock_back, Refusal::ClockBack),
        (system_frozen, Refusal::SystemFrozen),
        (invalid_signature, Refusal::InvalidSignature),
        (not_admin, Refusal::NotAdmin),
        (not_yet_valid, Refusal::EnvelopeNotYetValid),
        (expired, Refusal::EnvelopeExpired),
        (window_too_long, Refusal::EnvelopeWindowTooLong),
        (nonce_seen, Refusal::NonceSeen),
    ])
}
