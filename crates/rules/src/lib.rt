// The submission and the answers, as every crate and the host know them; the named limits and columns; the status of an answer.
#![tactic(auto)]

ghost use Rattle.std.specs.Prelude.{◌≡◌};
ghost use Rattle.rules.specs.Numbers.{answer_to, read_as};
ghost use Rattle.rules.specs.Replay.{verdict_of};
ghost use Rattle.rules.specs.Status.{status_of};
ghost use Rattle.rules.specs.Wallets.{standing_of};

use crate::limits::{
    ALL_AGREE, ANSWERS, CUT_SHORT, DISAGREES, ESCROW_LEN, FIRST_EDITION, HEADER_LEN, LAST_ANSWER,
    NOT_REPLAYED, WALLET_CLOSED, WALLET_LIVE, WALLET_MISSING,
};
use crate::refusal::Refusal;

pub mod limits;
pub mod operation;
pub mod refusal;
pub mod tables;

// The fields of a submission record, as C has them too: `op` and `flags` are the record's own bytes, which any host
// may pass, and the hash is four words of the struct that C lays out.
#[repr(C)]
#[derive(Clone, Copy)]
pub struct Submission {
    pub op: u8,
    pub flags: u8,
    pub now: u64,
    pub signer: u64,
    pub nonce: u64,
    pub issued: u64,
    pub expires: u64,
    pub target: u64,
    pub amount: u64,
    pub until: u64,
    pub link: u64,
    pub hash0: u64,
    pub hash1: u64,
    pub hash2: u64,
    pub hash3: u64,
}

// The form of a record: which records are well formed, and what operations 7 and 8 do.
#[derive(Clone, Copy, PartialEq, Eq, Debug)]
pub enum Form {
    // As it was before document 02, request 7: 7 is an accept, and 8 a dispute.
    Old,
    // 7 is the reply to a claim, and there is no 8.
    Today,
}

// What reading a record finds, as `milebeacon_read` answers it: 0 and its fields, or 3 and zeros.
#[repr(C)]
#[derive(Clone, Copy)]
pub struct Read {
    pub number: u64,
    pub submission: Submission,
}

// The fields of no record.
pub const NOTHING: Submission = Submission {
    op: 0,
    flags: 0,
    now: 0,
    signer: 0,
    nonce: 0,
    issued: 0,
    expires: 0,
    target: 0,
    amount: 0,
    until: 0,
    link: 0,
    hash0: 0,
    hash1: 0,
    hash2: 0,
    hash3: 0,
};

// What bytes are read as, in numbers.
impl From<Option<Submission>> for Read {
    ghost from_gives = { λ found read. read ≡ read_as found };

    fn from(record: Option<Submission>) -> Read {
        match record {
            Some(submission) => Read {
                number: 0,
                submission,
            },
            None => Read {
                number: u64::from(Refusal::MalformedRecord),
                submission: NOTHING,
            },
        }
    }
}

// The answer to a submission, in numbers: as `milebeacon_submit` answers it, and as a recording has it.
#[repr(C)]
#[derive(Clone, Copy, PartialEq, Eq, Debug)]
pub struct Answer {
    pub number: u64,
    pub word: u64,
}

// What is decided of a record before anything changes: what it is read as, and whether it is refused.
#[derive(Clone, Copy)]
pub struct Decided {
    pub submission: Submission,
    pub outcome: Result<(), Refusal>,
}

impl From<Result<u64, Refusal>> for Answer {
    ghost from_gives = { λ outcome answer. answer ≡ answer_to outcome };

    fn from(outcome: Result<u64, Refusal>) -> Answer {
        match outcome {
            Ok(word) => Answer { number: 0, word },
            Err(refusal) => Answer {
                number: u64::from(refusal),
                word: 0,
            },
        }
    }
}

// What a replay of a recording finds. A wrong length stands among the findings, as in the definitions' `replay`.
#[derive(Clone, Copy)]
pub enum Found {
    // The tables have a wrong length.
    WrongLength,
    // Every entry agrees, and how many there were.
    AllAgree(u64),
    // So many agree, and the next one is cut short.
    CutShort(u64),
    // The entry that disagrees, counted from 1; its recorded answer, and the core's.
    Disagrees(u64, Answer, Answer),
}

// The same as numbers, as `milebeacon_replay` answers it: the answer's, the finding's, how many entries were replayed, and both answers to the last
// of these if it disagrees.
#[repr(C)]
#[derive(Clone, Copy)]
pub struct Verdict {
    pub number: u64,
    pub finding: u64,
    pub replayed: u64,
    pub recorded: Answer,
    pub answered: Answer,
}

// An enum does not cross `extern "C"`.
impl From<Found> for Verdict {
    ghost from_gives = { λ found verdict. verdict ≡ verdict_of found };

    fn from(found: Found) -> Verdict {
        let none = Answer { number: 0, word: 0 };
        match found {
            Found::WrongLength => Verdict {
                number: u64::from(Refusal::BadTable),
                finding: NOT_REPLAYED,
                replayed: 0,
                recorded: none,
                answered: none,
            },
            Found::AllAgree(n) => Verdict {
                number: 0,
                finding: ALL_AGREE,
                replayed: n,
                recorded: none,
                answered: none,
            },
            Found::CutShort(n) => Verdict {
                number: 0,
                finding: CUT_SHORT,
                replayed: n,
                recorded: none,
                answered: none,
            },
            Found::Disagrees(n, recorded, answered) => Verdict {
                number: 0,
                finding: DISAGREES,
                replayed: n,
                recorded,
                answered,
            },
        }
    }
}

// What adding a recording to the month's report came to, in numbers, as `milebeacon_report` answers it: the answer, and how many
// entries were read.
#[repr(C)]
#[derive(Clone, Copy)]
pub struct Told {
    pub number: u64,
    pub entries: u64,
}

// What an edition fixes: its number, and the words of a header and of an escrow row. The type asks for no lengths: `looking::wallet_row`, `receipt_place`
// and `receipt_row` and the theorems of Promises.antt take any edition, and whoever needs `Sized` says so.
#[derive(Clone, Copy)]
pub struct Edition {
    pub number: u64,
    pub header: usize,
    pub escrow: usize,
}

// The first, as document 01 has it; `first_edition` of the definitions.
pub const FIRST: Edition = Edition {
    number: FIRST_EDITION,
    header: HEADER_LEN,
    escrow: ESCROW_LEN,
};

// The number of a row, counted from 1; 0 is no row. They are types of their own, so that none is taken for another. The paper names the three; the types
// hold any word, since a host may pass any (`milebeacon_escrow_place`), and whoever reads a row asks that the number `Names` one.
#[repr(C)]
#[derive(Clone, Copy)]
pub struct WalletNumber(pub u64);

#[repr(C)]
#[derive(Clone, Copy)]
pub struct EscrowNumber(pub u64);

#[repr(C)]
#[derive(Clone, Copy)]
pub struct ReceiptNumber(pub u64);

// What looking up a wallet finds. A frozen wallet is live.
#[derive(Clone, Copy)]
pub enum WalletState {
    // There is none.
    Missing,
    // It is there and not closed, and its number.
    Live(WalletNumber),
    // It is closed, and its number.
    Closed(WalletNumber),
}

// The same as numbers, as `milebeacon_wallet_row` answers it: which of the three, and the number of its row, or 0.
#[repr(C)]
#[derive(Clone, Copy)]
pub struct Standing {
    pub state: u64,
    pub number: u64,
}

impl From<WalletState> for Standing {
    ghost from_gives = { λ state standing. standing ≡ standing_of state };

    fn from(state: WalletState) -> Standing {
        let (state, number) = match state {
            WalletState::Missing => (WALLET_MISSING, 0),
            WalletState::Live(wallet) => (WALLET_LIVE, wallet.0),
            WalletState::Closed(wallet) => (WALLET_CLOSED, wallet.0),
        };
        Standing { state, number }
    }
}

const STATUSES: [u64; ANSWERS] = [
    200, 500, 500, 400, 409, 503, 400, 403, 400, 400, 400, 409, 400, 404, 403, 400, 404, 402, 400,
    429, 400, 400, 404, 404, 400, 400, 400, 404, 403, 409, 400, 400, 404, 403, 409, 400, 409, 507,
    507, 507, 507, 409, 409, 403,
];

// The status of an answer; any other number has 500.
pub fn status(number: u64) -> u64
    ensures { result ≡ status_of number }
{
    if number <= LAST_ANSWER {
        STATUSES[number as usize]
    } else {
        500
    }
}
