// The numbers of document 01 by name, as specs/Limits.antt has them. Credits are micro-credits and times milliseconds.

use crate::operation::Operation;

// Row lengths in words, and the most rows.
pub const WALLET_LEN: usize = 6;

// The first edition's header and escrow row; specs/Ledger.antt has them in `first_edition`.
pub const HEADER_LEN: usize = 8;

pub const ESCROW_LEN: usize = 8;

pub const RECEIPT_LEN: usize = 14;

pub const JOURNAL_LEN: usize = 8;

pub const MAX_WALLETS: usize = 1024;

pub const MAX_ESCROWS: usize = 4096;

pub const MAX_RECEIPTS: usize = 4096;

pub const MAX_ENTRIES: usize = 8192;

// Amounts.
pub const MAX_AMOUNT_MICRO: u64 = 1000000000000000;

pub const MAX_GRANTED_MICRO: u64 = 1000000000000000000;

pub const DEFAULT_TX_CAP_MICRO: u64 = 100000000;

pub const DEFAULT_DAILY_CAP_MICRO: u64 = 1000000000;

// Times; the last one is 2^48 - 1.
pub const LAST_TIME_MS: u64 = 281474976710655;

pub const MAX_SKEW_MS: u64 = 30000;

pub const MAX_ENVELOPE_MS: u64 = 3600000;

pub const DAY_MS: u64 = 86400000;

pub const MAX_HOLD_MS: u64 = 604800000;

pub const MIN_ACCEPTANCE_MS: u64 = 300000;

pub const MAX_ACCEPTANCE_MS: u64 = 604800000;

// The most rows that a sweep closes.
pub const MAX_SWEEP_ROWS: u64 = 1000;

// The bytes of a record, and its mark.
pub const RECORD_BYTES: usize = 108;

pub const MARK_0: u8 = 0xA7;

pub const MARK_1: u8 = 0x3C;

// The bytes of a recording's entry: a record, one byte of answer, eight bytes of answer word; and where these two stand.
pub const ENTRY_BYTES: usize = 117;

pub const ANSWER_AT: usize = 108;

pub const WORD_AT: usize = 109;

// What a replay found, as a number across `extern "C"`; 0 where nothing was replayed.
pub const NOT_REPLAYED: u64 = 0;

pub const ALL_AGREE: u64 = 1;

pub const CUT_SHORT: u64 = 2;

pub const DISAGREES: u64 = 3;

// Words of the header.
pub const EDITION: usize = 0;

pub const SYSTEM_FROZEN: usize = 1;

pub const CLOCK: usize = 2;

pub const GRANTED: usize = 3;

pub const WALLETS: usize = 4;

pub const ESCROWS: usize = 5;

pub const RECEIPTS: usize = 6;

pub const ENTRIES: usize = 7;

// Words of a wallet.
pub const ID: usize = 0;

pub const BALANCE: usize = 1;

pub const LOCKED: usize = 2;

pub const FROZEN: usize = 3;

pub const TX_CAP: usize = 4;

pub const DAILY_CAP: usize = 5;

// What a wallet's frozen word says, if it isn't 0.
pub const IS_FROZEN: u64 = 1;

pub const IS_CLOSED: u64 = 2;

// What looking up a wallet finds, in numbers.
pub const WALLET_MISSING: u64 = 0;

pub const WALLET_LIVE: u64 = 1;

pub const WALLET_CLOSED: u64 = 2;

// Words of an escrow.
pub const FROM: usize = 0;

pub const TO: usize = 1;

pub const ESCROW_AMOUNT: usize = 2;

pub const ESCROW_DEADLINE: usize = 3;

pub const ESCROW_STATE: usize = 4;

pub const OPENED_AT: usize = 5;

pub const ESCROW_CLOSED_AT: usize = 6;

pub const ESCROW_CLOSED_BY: usize = 7;

// Words of a receipt; the four hash words are its last.
pub const PROVIDER: usize = 0;

pub const REQUESTER: usize = 1;

pub const RECEIPT_LINK: usize = 2;

pub const ACCEPTANCE_DEADLINE: usize = 3;

pub const AUTO_ACCEPT: usize = 4;

pub const RECEIPT_STATE: usize = 5;

pub const CLAIMED_AT: usize = 6;

pub const RECEIPT_CLOSED_AT: usize = 7;

pub const RECEIPT_CLOSED_BY: usize = 8;

pub const RELEASE_CODE: usize = 9;

// Words of a journal row.
pub const SIGNER: usize = 0;

pub const NONCE: usize = 1;

pub const OPERATION: usize = 2;

pub const TARGET: usize = 3;

pub const ENTRY_AMOUNT: usize = 4;

pub const SETTLED_AT: usize = 5;

pub const ANSWER_WORD: usize = 6;

pub const ENTRY_LINK: usize = 7;

// Operations.
pub const GRANT: u8 = Operation::Grant as u8;

pub const TRANSFER: u8 = Operation::Transfer as u8;

pub const OPEN: u8 = Operation::Open as u8;

pub const RELEASE: u8 = Operation::Release as u8;

pub const REFUND: u8 = Operation::Refund as u8;

pub const CLAIM: u8 = Operation::Claim as u8;

// An accept or a dispute, by bit 2.
pub const REPLY: u8 = Operation::Reply as u8;

pub const SWEEP: u8 = Operation::Sweep as u8;

pub const FREEZE: u8 = Operation::Freeze as u8;

pub const CAPS: u8 = Operation::Caps as u8;

pub const CLOSE: u8 = Operation::Close as u8;

// What 7 and 8 are in the old form; today there is no operation 8.
pub const OLD_ACCEPT: u8 = 7;

pub const OLD_DISPUTE: u8 = 8;

// The last of them. The month's report has row 0 and a row for every operation: a later operation widens it here.
pub const LAST_OPERATION: u8 = CLOSE;

// By `as`: `From` is no constant's, and between u64 and usize there is none.
pub const GRID_ROWS: usize = LAST_OPERATION as usize + 1;

// The last answer, and how many there are: the statuses, and the report's columns. A later answer widens both here.
pub const LAST_ANSWER: u64 = 43;

pub const ANSWERS: usize = LAST_ANSWER as usize + 1;

// Weights of the flag bits 0 to 3: a bit is `flags / WEIGHT % 2`.
pub const SIGNATURE_HELD: u8 = 1;

pub const ADMIN: u8 = 2;

pub const AUTO_OR_FREEZE: u8 = 4;

// The same bit of a reply.
pub const ACCEPTS: u8 = 4;

pub const REASON_GIVEN: u8 = 8;

// States of an escrow, as the lent tables have them: words.
pub const IS_OPEN: u64 = 1;

pub const RELEASED: u64 = 2;

pub const REFUNDED: u64 = 3;

pub const EXPIRED: u64 = 4;

// States of a receipt.
pub const PENDING: u64 = 1;

pub const ACCEPTED: u64 = 2;

pub const DISPUTED: u64 = 3;

pub const LAPSED: u64 = 4;

// What a receipt stores where its escrow could not be released.
pub const RELEASE_IMPOSSIBLE: u64 = 29;

// The first edition's number, the header's first word.
pub const FIRST_EDITION: u64 = 1;

// The largest number that a figure of the month's report can have.
pub const LAST_FIGURE: u64 = 18446744073709551615;

// The report's five figures, in the paper's order.
pub const FIGURES: usize = 5;

// Words of what a report has named: the figure, or 0, and the row and the column of the entry that it stopped before.
pub const NAMED: usize = 3;

pub const NAMED_FIGURE: usize = 0;

// Where a record has its operation, and its flags.
pub const OPERATION_AT: usize = 2;

pub const FLAGS_AT: usize = 3;
