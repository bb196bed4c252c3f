// Turns a recording of the old form into today's, in place: an accept gets bit 2, a dispute becomes operation 7, and what was malformed gets operation 0.
#![tactic(auto)]

ghost use Rattle.std.specs.Prelude.{◌≡◌, ◌+◌, ◌≤◌, length};
ghost use Rattle.rules.specs.Limits;
ghost use Rattle.rules.specs.Convert.{new_operation, new_flags, converted_at, converted};

use rules::Form;
use rules::limits::{
    ACCEPTS, ENTRY_BYTES, FLAGS_AT, OLD_ACCEPT, OLD_DISPUTE, OPERATION_AT, RECORD_BYTES, REPLY,
    SIGNATURE_HELD,
};

// The operation of a record, by the one that the old form reads.
fn new_operation(old: u8) -> u8
    ensures { result ≡ new_operation old }
{
    if old == OLD_DISPUTE { REPLY } else { old }
}

// Its flags. An accept has no bit but that of the signature, which is written out and so computes to the definition's own.
fn new_flags(old: u8, flags: u8) -> u8
    ensures { result ≡ new_flags old flags }
{
    if old == OLD_ACCEPT {
        flags / SIGNATURE_HELD % 2 + ACCEPTS
    } else {
        flags
    }
}

// One entry. Its answer and the rest of its record stay.
fn convert_at(recording: &mut [u8], at: usize)
    requires { at + Limits.ENTRY_BYTES ≤ length recording.old }
    ensures { recording.new ≡ converted_at at recording.old }
{
    // 0 where nothing is read: the definitions read a malformed record as zeros
    let old = record::read_by(Form::Old, &recording[at..at + RECORD_BYTES]).map_or(0, |s| s.op);
    let operation = new_operation(old);
    let flags = new_flags(old, recording[at + FLAGS_AT]);
    recording[at + OPERATION_AT] = operation;
    recording[at + FLAGS_AT] = flags;
}

// Every whole entry. A last one that is cut short stays. What std's `chunks_exact_mut` lends comes back without a word on what was written, so an
// entry is taken by its place.
pub fn convert(recording: &mut [u8])
    ensures { recording.new ≡ converted recording.old }
{
    for entry in 0..recording.len() / ENTRY_BYTES {
        convert_at(recording, entry * ENTRY_BYTES);
    }
}
