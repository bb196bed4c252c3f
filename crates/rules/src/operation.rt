// What a record asks for.
ghost use Rattle.rules.specs.Operations.{Decodes};

use crate::limits::{
    CAPS, CLAIM, CLOSE, FREEZE, GRANT, OPEN, REFUND, RELEASE, REPLY, SWEEP, TRANSFER,
};

// The operations by the paper's names; each is its number.
#[derive(Clone, Copy, PartialEq, Eq, Debug)]
pub enum Operation {
    Grant = 1,
    Transfer = 2,
    Open = 3,
    Release = 4,
    Refund = 5,
    Claim = 6,
    // An accept or a dispute, by bit 2.
    Reply = 7,
    Sweep = 9,
    Freeze = 10,
    Caps = 11,
    Close = 12,
}

// A byte that is the number of none.
#[derive(Clone, Copy, PartialEq, Eq, Debug)]
pub struct NoOperation(pub u8);

impl TryFrom<u8> for Operation {
    type Error = NoOperation;

    ghost try_from_gives = { Decodes };

    fn try_from(op: u8) -> Result<Operation, NoOperation> {
        match op {
            GRANT => Ok(Operation::Grant),
            TRANSFER => Ok(Operation::Transfer),
            OPEN => Ok(Operation::Open),
            RELEASE => Ok(Operation::Release),
            REFUND => Ok(Operation::Refund),
            CLAIM => Ok(Operation::Claim),
            REPLY => Ok(Operation::Reply),
            SWEEP => Ok(Operation::Sweep),
            FREEZE => Ok(Operation::Freeze),
            CAPS => Ok(Operation::Caps),
            CLOSE => Ok(Operation::Close),
            _ => Err(NoOperation(op)),
        }
    }
}
