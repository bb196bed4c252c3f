ghost use Rattle.std.specs.Prelude.{◌≡◌};
ghost use Rattle.rules.specs.Numbers.{number_of, as_number, first_of};

// Why a submission is refused, by the paper's names; each is its number. The order of check is that of the table in specs/Refusals.antt.
#[derive(Clone, Copy, PartialEq, Eq, Debug)]
pub enum Refusal {
    BadTable = 1,
    LedgerDamaged = 2,
    MalformedRecord = 3,
    ClockBack = 4,
    SystemFrozen = 5,
    InvalidSignature = 6,
    NotAdmin = 7,
    EnvelopeNotYetValid = 8,
    EnvelopeExpired = 9,
    EnvelopeWindowTooLong = 10,
    NonceSeen = 11,
    AmountOutOfRange = 12,
    SenderNotFound = 13,
    SenderFrozen = 14,
    RecipientInvalid = 15,
    WalletNotFound = 16,
    InsufficientBalance = 17,
    PerTxCapExceeded = 18,
    DailyCapExceeded = 19,
    EscrowDeadlinePast = 20,
    EscrowDeadlineExceedsMax = 21,
    ProviderNotFound = 22,
    RequesterNotFound = 23,
    AcceptanceWindowTooShort = 24,
    AcceptanceWindowTooLong = 25,
    AcceptanceDeadlinePast = 26,
    EscrowNotFound = 27,
    EscrowSignerNotAuthorized = 28,
    EscrowNotOpen = 29,
    EscrowDidMismatch = 30,
    AcceptanceDeadlineExceedsEscrow = 31,
    ReceiptNotFound = 32,
    ReceiptSignerNotAuthorized = 33,
    ReceiptNotPending = 34,
    DisputeReasonRequired = 35,
    GrantLimit = 36,
    WalletTableFull = 37,
    EscrowTableFull = 38,
    ReceiptTableFull = 39,
    JournalTableFull = 40,
    AcceptanceClosed = 41,
    WalletNotEmpty = 42,
    WalletClosed = 43,
}

// The paper's number.
impl From<Refusal> for u64 {
    ghost from_gives = { λ refusal number. number ≡ number_of refusal };

    fn from(refusal: Refusal) -> u64 {
        refusal as u64
    }
}

// The number of an answer that has no word: 0, or the refusal's.
pub fn number(answer: Result<(), Refusal>) -> u64
    ensures { result ≡ as_number answer }
{
    match answer {
        Ok(()) => 0,
        Err(refusal) => u64::from(refusal),
    }
}

// What the first check that holds refuses by, of a table that has them in the order of check.
#[tactic(auto, unfolding(crate::specs::Numbers::first_of))]
pub fn first_of<E: Copy, const N: usize>(checks: [(bool, E); N]) -> Result<(), E>
    ensures { result ≡ first_of checks }
{
    for (holds, error) in checks {
        if holds {
            return Err(error);
        }
    }
    Ok(())
}
