// An index of the wallets by id, that nobody trusts: a look-up checks what it proposes, and searches where it proposes nothing.
// Parties choose their ids, so the index is a tree over the bits of an id and no hash table: whatever the ids, a walk ends after STEPS steps.
#![tactic(auto)]

ghost use Rattle.std.specs.Prelude.{◌≡◌, true, ◌+◌, ◌*◌, ◌≤◌, ◌<◌, length, IfSome};
ghost use Rattle.rules.specs.Limits;
ghost use Rattle.index.specs.Index;
ghost use Rattle.rules.specs.Table.{every, distinct};
ghost use Rattle.index.specs.Index.{id_at, differs, Copied, Within, Seated, Filled, Hit, Indexed, wallet_number, number_of, sender_of};

use rules::limits::{ID, MAX_WALLETS, WALLET_LEN};
use rules::{WalletNumber, WalletState};

// Wallet numbers, and 0, which is no wallet's.
pub const NUMBERS: usize = MAX_WALLETS + 1;

// The walk of an id starts at one of the roots, and goes on to one of the branches of the wallet that it meets.
const ROOTS: usize = 8192;

const BRANCHES: usize = 32;

pub const PLACES: usize = ROOTS + BRANCHES * NUMBERS;

// After so many steps the bits of an id are at their end.
const STEPS: usize = 12;

// How many steps `near` takes. No walk of random ids, or of ids in a row, takes more.
const NEAR: usize = 4;

// The ids of the first n wallets, each at its number.
pub fn copy_ids(w: &[u64], n: usize, ids: &mut [u64; NUMBERS])
    requires { (n * Limits.WALLET_LEN ≤ length w.now) × (n ≤ Limits.MAX_WALLETS) × (length ids.old ≡ Index.NUMBERS) }
    ensures { Copied w.now n ids.new }
{
    for i in 0..n {
        ids[i + 1] = w[i * WALLET_LEN + ID];
    }
}

// Whether no row before row i has its id. A fold, which looks at every row, and not `all`: with no end in its midst the compiler takes several at once.
fn differs_before(ids: &[u64; NUMBERS], i: usize) -> bool
    requires { i < Limits.MAX_WALLETS }
    ensures { result ≡ every i (differs ids.now i) }
{
    let x = ids[i + 1];
    (0..i).fold(true, |differs, j| differs & (ids[j + 1] != x))
}

// Whether the ids of the first n rows differ, by comparing each two.
fn differ_each(ids: &[u64; NUMBERS], n: usize) -> bool
    requires { n ≤ Limits.MAX_WALLETS }
    ensures { result ≡ distinct n (id_at ids.now) }
{
    (0..n).all(|i| differs_before(ids, i))
}

// A free place where the walk of an id ends, and the steps that it takes to come there.
#[derive(Clone, Copy)]
struct Seat {
    place: usize,
    steps: usize,
}

// The seat of the id x, where the index has n wallets; none where the walk meets the id, or has no steps left.
// The walk is written three times: this one wants the free place, `near` ends where it meets the id, and `far` has no branch.
fn seat_for(ids: &[u64; NUMBERS], t: &[u16; PLACES], n: usize, x: u64) -> Option<Seat>
    requires { (n ≤ Limits.MAX_WALLETS) × Within n t.now }
    ensures { IfSome result (λ seat. Seated ids.now t.now x seat.place) }
{
    let mut p = x as usize % ROOTS;
    let mut y = x as usize / ROOTS;
    for step in 0..STEPS {
        let s = usize::from(t[p]);
        if s == 0 {
            return Some(Seat {
                place: p,
                steps: step + 1,
            });
        }
        if ids[s] == x {
            return None;
        }
        p = ROOTS + s * BRANCHES + y % BRANCHES;
        y /= BRANCHES;
    }
    None
}

// Gives each of the first n wallets its place in the index, which is empty before. The answer is the most steps that a walk takes, or none
// where two wallets have the same id. That ids differ is shown by the index itself: the walk of each id comes to its own number.
pub fn fill(ids: &[u64; NUMBERS], t: &mut [u16; PLACES], n: usize) -> Option<usize>
    requires { (n ≤ Limits.MAX_WALLETS) × Within 0 t.old }
    ensures { Filled ids.now n t.new result }
{
    let mut most: usize = 1;
    for i in 0..n {
        let Some(seat) = seat_for(ids, t, i, ids[i + 1]) else {
            return differ_each(ids, n).then_some(STEPS);
        };
        t[seat.place] = (i + 1) as u16;
        most = most.max(seat.steps);
    }
    Some(most)
}

// The number at the root of an id whose bits are y, and the one at a branch of wallet s by the bits y that are left; 0 for none,
// which is a place of `ids` like any other, so that the walk has no branch for it.
fn root(t: &[u16; PLACES], n: usize, y: usize) -> usize
    requires { Within n t.now }
    ensures { result ≤ n }
{
    usize::from(t[y % ROOTS])
}

fn branch(t: &[u16; PLACES], n: usize, s: usize, y: usize) -> usize
    requires { (n ≤ Limits.MAX_WALLETS) × (s ≤ n) × Within n t.now }
    ensures { result ≤ n }
{
    usize::from(t[ROOTS + s * BRANCHES + y % BRANCHES])
}

// The number s, if it is a wallet's.
fn number(s: usize) -> Option<WalletNumber>
    ensures { result ≡ wallet_number s }
{
    (s != 0).then_some(WalletNumber(s as u64))
}

// What the index proposes for the id x, by the first steps of its walk, which ends where it meets the id.
fn near(ids: &[u64; NUMBERS], t: &[u16; PLACES], n: usize, x: u64) -> Option<WalletNumber>
    requires { (n ≤ Limits.MAX_WALLETS) × Within n t.now }
    ensures { IfSome result (λ number. Hit ids.now n x number.0) }
{
    let mut a = root(t, n, x as usize);
    let mut y = x as usize / ROOTS;
    for _ in 0..NEAR {
        if ids[a] == x {
            return number(a);
        }
        a = branch(t, n, a, y);
        y /= BRANCHES;
    }
    None
}

// The same by every step that a walk can take, with no branch that depends on the id: a branch that the ids make hard to foresee would cost
// more than the steps it saves.
fn far(ids: &[u64; NUMBERS], t: &[u16; PLACES], n: usize, x: u64) -> Option<WalletNumber>
    requires { (n ≤ Limits.MAX_WALLETS) × Within n t.now }
    ensures { IfSome result (λ number. Hit ids.now n x number.0) }
{
    let mut s = root(t, n, x as usize);
    let mut y = x as usize / ROOTS;
    // 0 for none, as the steps have no branch
    let mut hit: usize = 0;
    for _ in 0..STEPS {
        if ids[s] == x {
            hit = s;
        }
        s = branch(t, n, s, y);
        y /= BRANCHES;
    }
    number(hit)
}

// The number of the wallet with the id x: by every step of its walk, or else by a search.
fn look_on(
    w: &[u64],
    ids: &[u64; NUMBERS],
    t: &[u16; PLACES],
    n: usize,
    x: u64,
) -> Option<WalletNumber>
    requires { Indexed w.now n ids.now t.now }
    ensures { result ≡ number_of w.now n x }
{
    if let Some(number) = far(ids, t, n, x) {
        return Some(number);
    }
    // an escrow's party may be closed: a sound ledger asks only that it is written
    match rows::numbered::find_wallet(w, n, x) {
        WalletState::Missing => None,
        WalletState::Live(number) => Some(number),
        WalletState::Closed(number) => Some(number),
    }
}

// What the index proposes by the first steps, if no walk takes more.
fn proposed(
    ids: &[u64; NUMBERS],
    t: &[u16; PLACES],
    n: usize,
    most: usize,
    x: u64,
) -> Option<WalletNumber>
    requires { (n ≤ Limits.MAX_WALLETS) × Within n t.now }
    ensures { IfSome result (λ number. Hit ids.now n x number.0) }
{
    if most <= NEAR {
        near(ids, t, n, x)
    } else {
        None
    }
}

// The number of the wallet `from`, if that and `to` have one. `look_on` stands here twice, and in no function of its own with `proposed`, so
// that the compiler has the few steps of `near` in line and the rest out of the way. What all these take goes as plain parameters: a struct of
// them, lent or copied, lies in memory for `look_on`, and the test of soundness took 5 to 10 % longer.
pub fn sender(
    w: &[u64],
    ids: &[u64; NUMBERS],
    t: &[u16; PLACES],
    n: usize,
    most: usize,
    from: u64,
    to: u64,
) -> Option<WalletNumber>
    requires { Indexed w.now n ids.now t.now }
    ensures { result ≡ sender_of w.now n from to }
{
    let sender = proposed(ids, t, n, most, from).or_else(|| look_on(w, ids, t, n, from));
    let recipient = proposed(ids, t, n, most, to).or_else(|| look_on(w, ids, t, n, to));
    recipient.and(sender)
}
