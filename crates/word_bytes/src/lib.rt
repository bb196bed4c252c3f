// Little-endian words in bytes.
#![tactic(auto)]

ghost use Rattle.std.specs.Prelude.{◌≡◌, ◌+◌, ◌*◌, ◌<◌, ◌≤◌, length};
ghost use Rattle.std.proofs.lemmas.List.Edits.{sets};
ghost use Rattle.rules.specs.Record.{le_at, le_bytes, word_bytes};

// The word whose 8 bytes stand at a place, the lowest first.
pub fn word_at(b: &[u8], at: usize) -> u64
    requires { at + 8 ≤ length b.now }
    ensures { result ≡ le_at 8 b.now at }
{
    u64::from_le_bytes(b[at..at + 8].try_into().unwrap())
}

// Stores the n low bytes of x at a place, the lowest first. n may pass the 8 that std's `to_le_bytes` gives, so a loop divides.
pub fn put_le(b: &mut [u8], at: usize, n: usize, x: u64)
    requires { at + n ≤ length b.old }
    ensures { b.new ≡ sets b.old at (le_bytes n x) }
{
    let mut v = x;
    for p in at..at + n {
        b[p] = (v % 256) as u8;
        v /= 256;
    }
}

// Stores words from a place on.
pub fn put_words(b: &mut [u8], at: usize, words: &[u64])
    requires { at + 8 * length words.now ≤ length b.old }
    ensures { b.new ≡ sets b.old at (word_bytes words.now) }
{
    for (i, &w) in words.iter().enumerate() {
        put_le(b, at + 8 * i, 8, w);
    }
}
