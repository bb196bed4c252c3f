// Whether fields are those of a record that is not malformed, by a form.
ghost use Rattle.std.specs.Prelude.{◌≡◌};
ghost use Rattle.rules.specs.Record.{well_formed_by};

use rules::limits::{
    ACCEPTS, ADMIN, AUTO_OR_FREEZE, CAPS, CLAIM, CLOSE, FREEZE, GRANT, LAST_OPERATION,
    LAST_TIME_MS, OLD_DISPUTE, OPEN, REASON_GIVEN, REFUND, RELEASE, REPLY, SIGNATURE_HELD, SWEEP,
    TRANSFER,
};
use rules::{Form, Submission};

// Whatever the operation does not use is zero, and the rest is within its bounds. The tests are joined in the definition's order by `&` and `|`,
// which do not branch as `&&` and `matches!` do, so that all of them are one term; and a bit is taken by `/` and `%`, as the definition takes it. By the
// names of `Operation`, or by patterns, the computing does not end.
pub fn well_formed(form: Form, s: Submission) -> bool
    ensures { result ≡ well_formed_by form s }
{
    let op = s.op;
    let flags = s.flags;
    let today = form == Form::Today;
    // A reply may accept by bit 2 and give a reason by bit 3; in the old form a dispute gave the reason.
    let reply = today & (op == REPLY);
    let gone = today & (op == OLD_DISPUTE);
    let old_dispute = !today & (op == OLD_DISPUTE);
    // What operations 1 to 12 use besides now. The envelope is signer, nonce, issued and expires; all but the sweep have it, and a target.
    let envelope = !(op == SWEEP);
    let admin = (op == GRANT)
        | ((op == RELEASE) | ((op == REFUND) | ((op == FREEZE) | ((op == CAPS) | (op == CLOSE)))));
    let auto_freeze_or_accept = (op == CLAIM) | ((op == FREEZE) | reply);
    let reason = reply | old_dispute;
    let amount = (op == GRANT)
        | ((op == TRANSFER) | ((op == OPEN) | ((op == SWEEP) | (op == CAPS))));
    let until = (op == OPEN) | (op == CLAIM);
    let link = (op == CLAIM) | (op == CAPS);
    let hash = op == CLAIM;
    let bits = (envelope | (flags / SIGNATURE_HELD % 2 == 0))
        & ((admin | (flags / ADMIN % 2 == 0))
            & ((auto_freeze_or_accept | (flags / AUTO_OR_FREEZE % 2 == 0))
                & ((reason | (flags / REASON_GIVEN % 2 == 0)) & (flags < 16))));
    let apart = (flags / ACCEPTS % 2 == 0) | (flags / REASON_GIVEN % 2 == 0);
    let times = (s.now <= LAST_TIME_MS)
        & ((s.issued <= LAST_TIME_MS)
            & ((s.expires <= LAST_TIME_MS)
                & ((s.until <= LAST_TIME_MS) & (s.issued <= s.expires))));
    let signed = ((op == SWEEP) | !(s.signer == 0)) & times;
    let hashed = (hash | (s.hash0 == 0))
        & ((hash | (s.hash1 == 0))
            & ((hash | (s.hash2 == 0)) & ((hash | (s.hash3 == 0)) & signed)));
    let asked = (envelope | (s.target == 0))
        & ((amount | (s.amount == 0))
            & ((until | (s.until == 0)) & ((link | (s.link == 0)) & hashed)));
    let enveloped = (envelope | (s.signer == 0))
        & ((envelope | (s.nonce == 0))
            & ((envelope | (s.issued == 0)) & ((envelope | (s.expires == 0)) & asked)));
    (1 <= op) & ((op <= LAST_OPERATION) & (!gone & (bits & (apart & enveloped))))
}
