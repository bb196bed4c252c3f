// The submission record of 108 bytes: read into its fields, by either form, and written from them.
#![tactic(auto)]

ghost use Rattle.std.specs.Prelude.{◌≡◌, length};
ghost use Rattle.rules.specs.Limits;
ghost use Rattle.rules.specs.Numbers.{as_number, read_as};
ghost use Rattle.rules.specs.Record.{decode, encode, read_by, read_of, Written, write_of};

use rules::limits::{MARK_0, MARK_1, RECORD_BYTES};
use rules::refusal::Refusal;
use rules::{Form, Submission};

mod form;
pub mod trips;

// The fields that 108 bytes say. The offsets are the paper's table, and compute to the definition's fields.
fn fields(b: &[u8]) -> Submission
    requires { length b.now ≡ Limits.RECORD_BYTES }
    ensures { result ≡ decode b.now }
{
    Submission {
        op: b[2],
        flags: b[3],
        now: word_bytes::word_at(b, 4),
        signer: word_bytes::word_at(b, 12),
        nonce: word_bytes::word_at(b, 20),
        issued: word_bytes::word_at(b, 28),
        expires: word_bytes::word_at(b, 36),
        target: word_bytes::word_at(b, 44),
        amount: word_bytes::word_at(b, 52),
        until: word_bytes::word_at(b, 60),
        link: word_bytes::word_at(b, 68),
        hash0: word_bytes::word_at(b, 76),
        hash1: word_bytes::word_at(b, 84),
        hash2: word_bytes::word_at(b, 92),
        hash3: word_bytes::word_at(b, 100),
    }
}

// Reads a record by a form: its fields, or nothing of a malformed one.
pub fn read_by(form: Form, bytes: &[u8]) -> Option<Submission>
    ensures { read_as result ≡ read_by form bytes.now }
{
    if bytes.len() != RECORD_BYTES {
        return None;
    }
    let s = fields(bytes);
    let formed = form::well_formed(form, s);
    if (bytes[0] == MARK_0) & ((bytes[1] == MARK_1) & formed) {
        Some(s)
    } else {
        None
    }
}

// Reads a record of today's form.
pub fn read_record(bytes: &[u8]) -> Option<Submission>
    ensures { read_as result ≡ read_of bytes.now }
{
    read_by(Form::Today, bytes)
}

// Stores the bytes of a submission.
fn put_fields(s: Submission, out: &mut [u8])
    requires { length out.old ≡ Limits.RECORD_BYTES }
    ensures { out.new ≡ encode s }
{
    // Four stores compute to the head of the definition's bytes; a copy into `out[..4]` would want a law of its own, and is no plainer.
    out[0] = MARK_0;
    out[1] = MARK_1;
    out[2] = s.op;
    out[3] = s.flags;
    let words = [
        s.now, s.signer, s.nonce, s.issued, s.expires, s.target, s.amount, s.until, s.link,
        s.hash0, s.hash1, s.hash2, s.hash3,
    ];
    word_bytes::put_words(out, 4, &words);
}

// Writes a record; of one that would be malformed, or an output that is not as long as a record, the output stays as it was.
pub fn write_record(s: Submission, out: &mut [u8]) -> Result<(), Refusal>
    ensures { ◌≡◌ {A = Written} (record { number = as_number result; out = out.new }) (write_of s out.old) }
{
    if out.len() != RECORD_BYTES {
        return Err(Refusal::MalformedRecord);
    }
    if !form::well_formed(Form::Today, s) {
        return Err(Refusal::MalformedRecord);
    }
    put_fields(s, out);
    Ok(())
}
