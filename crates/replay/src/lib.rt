// A recording replayed: each entry is submitted in turn and its recorded answer compared, up to the first that disagrees. What holds for every
// edition is written and proved once; the public calls are those of each edition that there is, and ask nothing. All are lent the five slices
// that the paper names.
#![tactic(auto)]

ghost use Rattle.std.specs.Prelude.{◌≡◌, ◌+◌, ◌≤◌, get_or, length};
ghost use Rattle.rules.specs.Limits;
ghost use Rattle.rules.specs.Ledger.{Sized, first_edition};
ghost use Rattle.rules.specs.Moments.{tables, lent};
ghost use Rattle.rules.specs.Record.{le_at};
ghost use Rattle.rules.specs.Recording.{cut_short};
ghost use Rattle.rules.specs.Replay.{gone, answer, ended, replay_on, replay};
ghost use Rattle.rules.specs.Sound.{Ready};
ghost use Rattle.rules.specs.Submit.{submit};

use rules::limits::{ANSWER_AT, ENTRY_BYTES, RECORD_BYTES, WORD_AT};
use rules::{Answer, Edition, FIRST, Found};

// The recorded answer of the entry that starts at a place.
fn recorded_at(recording: &[u8], at: usize) -> Answer
    requires { at + Limits.ENTRY_BYTES ≤ length recording.now }
    ensures { result ≡ answer (get_or recording.now (at + Limits.ANSWER_AT) 0) (le_at 8 recording.now (at + Limits.WORD_AT)) }
{
    let number = u64::from(recording[at + ANSWER_AT]);
    let word = word_bytes::word_at(recording, at + WORD_AT);
    Answer { number, word }
}

// What is found where no whole entry is left, after n that agree. Bytes behind the whole entries are one cut short, which is not replayed.
fn at_end(recording: &[u8], n: u64) -> Found
    ensures { result ≡ ended (cut_short recording.now) n }
{
    if recording.len() % ENTRY_BYTES != 0 {
        return Found::CutShort(n);
    }
    Found::AllAgree(n)
}

// Every whole entry in turn, on the tables as they are, until one disagrees. They are sound at the start and stay so from entry to entry, so this
// is not tested at each: the test reads every written row.
fn replay_on(
    edition: Edition,
    header: &mut [u64],
    wallets: &mut [u64],
    escrows: &mut [u64],
    receipts: &mut [u64],
    journal: &mut [u64],
    recording: &[u8],
) -> Found
    requires { Sized edition × Ready (tables edition header wallets escrows receipts journal) }
    ensures { let L = lent edition header wallets escrows receipts journal in gone result L.exit ≡ replay_on submit L.entry recording.now }
{
    let entries = recording.len() / ENTRY_BYTES;
    // By number, as the definitions count entries: of the pieces of `chunks_exact` it is not proved where in the recording each lies.
    for k in 0..entries {
        let at = k * ENTRY_BYTES;
        let end = at + RECORD_BYTES;
        let recorded = recorded_at(recording, at);
        let answered = Answer::from(editions::step(
            edition,
            header,
            wallets,
            escrows,
            receipts,
            journal,
            &recording[at..end],
        ));
        if recorded != answered {
            // Entries are reported counted from 1.
            return Found::Disagrees(k as u64 + 1, recorded, answered);
        }
    }
    at_end(recording, entries as u64)
}

// On the tables started afresh, whatever words they hold.
fn replay_afresh(
    edition: Edition,
    header: &mut [u64],
    wallets: &mut [u64],
    escrows: &mut [u64],
    receipts: &mut [u64],
    journal: &mut [u64],
    recording: &[u8],
) -> Found
    requires { Sized edition }
    ensures { let L = lent edition header wallets escrows receipts journal in gone result L.exit ≡ replay submit L.entry recording.now }
{
    match editions::fresh(edition, header, wallets, escrows, receipts, journal) {
        Ok(()) => replay_on(
            edition, header, wallets, escrows, receipts, journal, recording,
        ),
        Err(_) => Found::WrongLength,
    }
}

// A replay of a recording on the lent tables, started afresh: which entry disagrees first, and both answers; or how many agree, and whether the
// next is cut short. The tables are left as after the last entry replayed; of a wrong length, they are left as they were.
pub fn replay(
    header: &mut [u64],
    wallets: &mut [u64],
    escrows: &mut [u64],
    receipts: &mut [u64],
    journal: &mut [u64],
    recording: &[u8],
) -> Found
    ensures { let L = lent first_edition header wallets escrows receipts journal in gone result L.exit ≡ replay submit L.entry recording.now }
{
    replay_afresh(
        FIRST, header, wallets, escrows, receipts, journal, recording,
    )
}
