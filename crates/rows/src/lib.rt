// Words and rows of a lent table. A row is counted from 0 here; its number is one more. A table is lent whole, and how many of its rows are written
// is a word of the header: so functions take a table and a count, and no shorter slice.
#![tactic(auto)]

ghost use Rattle.std.specs.Prelude.{◌≡◌, cond, ◌*◌, ◌<◌, ◌≤◌, ◌^◌, length, get_or};
ghost use Rattle.rules.specs.Limits;
ghost use Rattle.rules.specs.Table.{word, put, put_row, table_right};
ghost use Rattle.rules.specs.Ledger.{row_of};
ghost use Rattle.rules.specs.Lookup.{count_right, row_place, part_at};
ghost use Rattle.rows.specs.Part.{placed};

use rules::limits::{ID, WALLET_LEN};

pub mod numbered;

// Word i of a table or header; 0 past the end.
pub fn at(t: &[u64], i: usize) -> u64
    ensures { result ≡ get_or t.now i 0 }
{
    t.get(i).copied().unwrap_or(0)
}

// Word k of a row; 0 past the end.
pub fn get(t: &[u64], len: usize, row: usize, k: usize) -> u64
    requires { (row < 2 ^ 32) × (len < 2 ^ 16) × (k < 2 ^ 16) }
    ensures { result ≡ word t.now len row k }
{
    at(t, row * len + k)
}

// v at word k of a row; nothing past the end. What std's `get_mut` lends comes back without a word on what was written, so the test is ours.
pub fn set(t: &mut [u64], len: usize, row: usize, k: usize, v: u64)
    requires { (row < 2 ^ 32) × (len < 2 ^ 16) × (k < 2 ^ 16) }
    ensures { t.new ≡ put t.old len row k v }
{
    let i = row * len + k;
    if i < t.len() {
        t[i] = v;
    }
}

// The words vs as a row; nothing past the end.
pub fn put_row(t: &mut [u64], len: usize, row: usize, vs: &[u64])
    requires { (row < 2 ^ 32) × (len < 2 ^ 16) × (length vs.now < 2 ^ 16) }
    ensures { t.new ≡ put_row t.old len row vs.now }
{
    for (k, &v) in vs.iter().enumerate() {
        set(t, len, row, k, v);
    }
}

// n where b holds, else rest: a choice that the compiler makes without a branch.
pub fn choose(b: bool, n: u64, rest: u64) -> u64
    ensures { result ≡ cond b n rest }
{
    if b { n } else { rest }
}

// The first of n wallet rows that has the id; n where there is none. The search stops at its row. The paper names the form: a loop that yields
// the row by `break`, or the count; no `for` yields a value.
pub fn find_row(t: &[u64], n: usize, id: u64) -> usize
    requires { n * Limits.WALLET_LEN ≤ length t.now }
    ensures { result ≡ row_of t.now n id }
{
    let mut i = 0;
    loop {
        if n <= i {
            break n;
        }
        if t[i * WALLET_LEN + ID] == id {
            break i;
        }
        i += 1;
    }
}

// Whether a table has at least one row, a whole number of rows, and at most `most`.
pub fn table_right(t: &[u64], len: usize, most: usize) -> bool
    requires { 0 < len }
    ensures { result ≡ table_right len most t.now }
{
    (len <= t.len()) & ((t.len() % len == 0) & (t.len() / len <= most))
}

// Whether header and table have right lengths, and the count in the header's word c is within the table.
pub fn count_right(
    header: &[u64],
    t: &[u64],
    header_len: usize,
    c: usize,
    len: usize,
    most: usize,
) -> bool
    requires { 0 < len }
    ensures { result ≡ count_right header_len c len most header.now t.now }
{
    let right = table_right(t, len, most);
    // `as`, since std has no `From` between u64 and usize; both have 64 bits.
    (header.len() == header_len) & (right & (at(header, c) <= (t.len() / len) as u64))
}

// Where a row starts in its table, in words, by its number; the table's length where there is no such row, as `row_place` of
// Lookup.antt has it and as C is told it.
pub fn row_place(
    header: &[u64],
    t: &[u64],
    header_len: usize,
    c: usize,
    len: usize,
    most: usize,
    number: u64,
) -> usize
    requires { 0 < len }
    ensures { result ≡ row_place header_len c len most header.now t.now number }
{
    let right = count_right(header, t, header_len, c, len, most);
    let count = at(header, c);
    if right & ((0 < number) & (number <= count)) {
        (number as usize - 1) * len
    } else {
        t.len()
    }
}

// That very row of the caller's table: len words from a place on, and none at the table's end.
pub fn row_part<'a>(t: &'a [u64], len: usize, place: usize) -> &'a [u64]
    requires { (len < 2 ^ 16) × (place ≤ length t.now) }
    ensures { (result.now ≡ part_at len t.now place) × (result.ref_ptr ≡ placed t.entry.ref_ptr place) }
{
    let end = (place + len).min(t.len());
    // Not by std's `get`, which says what words it lends and not where they lie.
    &t[place..end]
}
