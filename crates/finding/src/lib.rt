// The wallets that a record names, looked up once in a call. Nothing calls this yet.
#![tactic(auto)]

ghost use Rattle.std.specs.Prelude.{◌≡◌, ◌*◌, ◌≤◌, ◌<◌, get_or, length};
ghost use Rattle.rules.specs.Limits;
ghost use Rattle.rules.specs.Refusals.{one_of, signs, targets};
ghost use Rattle.rules.specs.declared.WalletState.TheVariants.{Missing};
ghost use Rattle.finding.specs.Parties.{look_up_if, parties_of};

use rules::limits::{CAPS, CLAIM, CLOSE, FREEZE, GRANT, OPEN, TRANSFER, WALLETS};
use rules::{Submission, WalletState};

// The wallets of a record's signer and of its target; `Missing` for one that its operation does not name.
#[derive(Clone, Copy)]
pub struct Parties {
    pub signer: WalletState,
    pub target: WalletState,
}

// Whether an operation names the wallet of its signer, and that of its target: by the byte, as the definition's lists have it.
fn names_signer(op: u8) -> bool
    ensures { result ≡ one_of signs op }
{
    matches!(op, TRANSFER | OPEN | CLAIM)
}

fn names_target(op: u8) -> bool
    ensures { result ≡ one_of targets op }
{
    matches!(op, GRANT | TRANSFER | OPEN | CLAIM | FREEZE | CAPS | CLOSE)
}

// The wallet of an id, if it is asked for.
fn find_if(asked: bool, wallets: &[u64], n: usize, id: u64) -> WalletState
    requires { n * Limits.WALLET_LEN ≤ length wallets.now }
    ensures { result ≡ look_up_if asked wallets.now n id }
{
    if asked {
        rows::numbered::find_wallet(wallets, n, id)
    } else {
        WalletState::Missing
    }
}

// Each wallet that the record names, by a search of its own.
pub fn find_parties(header: &[u64], wallets: &[u64], s: Submission) -> Parties
    requires { (Limits.WALLETS < length header.now) × (get_or header.now Limits.WALLETS 0 * Limits.WALLET_LEN ≤ length wallets.now) }
    ensures { result ≡ parties_of header.now wallets.now s }
{
    let n = header[WALLETS] as usize;
    let signer = find_if(names_signer(s.op), wallets, n, s.signer);
    let target = find_if(names_target(s.op), wallets, n, s.target);
    Parties { signer, target }
}

// No wallets: those of a submission that is refused before any is looked for.
pub fn nobody() -> Parties
    ensures { result ≡ record { signer = Missing; target = Missing } }
{
    Parties {
        signer: WalletState::Missing,
        target: WalletState::Missing,
    }
}
