// Both round trips, as facts about the code. They take any submission and any bytes, so what the types say of them is all that is assumed.
ghost use Rattle.std.specs.Prelude.{◌≡◌, length, Some, Ok};
ghost use Rattle.rules.specs.Limits;
ghost use Rattle.rules.specs.Numbers.{as_number, read_as};
ghost use Rattle.rules.specs.Record.{read_of, Written, write_of};

use rules::Submission;
use rules::refusal::Refusal;

// Writes a submission and reads it back: where it is written, it is read back equal.
pub fn write_read(s: Submission, out: &mut [u8]) -> Option<Submission>
    ensures { (out.new ≡ (write_of s out.old).out) × (read_as result ≡ read_of out.new)
        × ((write_of s out.old).number ≡ 0 → result ≡ Some s) }
{
    let _ = crate::write_record(s, out);
    crate::read_record(out)
}

// Reads a record and writes it back: where it is accepted and there is room for it, it is written back byte by byte.
pub fn read_write(bytes: &[u8], out: &mut [u8]) -> Result<(), Refusal>
    ensures { (◌≡◌ {A = Written} (record { number = as_number result; out = out.new }) (write_of (read_of bytes.now).submission out.old))
        × ((read_of bytes.now).number ≡ 0 → length out.old ≡ Limits.RECORD_BYTES → (result ≡ Ok tt) × (out.new ≡ bytes.now)) }
{
    match crate::read_record(bytes) {
        Some(s) => crate::write_record(s, out),
        None => Err(Refusal::MalformedRecord),
    }
}
