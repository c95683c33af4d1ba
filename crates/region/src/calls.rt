// Membership, as it is asked from outside.
ghost use Rattle.std.specs.Prelude.{◌≡◌};
ghost use Rattle.format.specs.Rows.{last, outcome};
ghost use Rattle.format.specs.Told.{lent_header, belonging};
ghost use Rattle.format.specs.Calls.{diff_member, region_member};
ghost use Rattle.region.specs.Asked.{holder_of};

use super::asking::ask_file;
use super::lent::one_difference;
use answer::Answer;
use cube::{bits_refusal, spelled};

// The answer about an operand that is accepted: a refusal of a header that is not well formed, else which difference is the first to hold it.
fn told(h: &[u8], w: usize, holder: Option<u16>) -> Answer
    ensures { result ≡ (outcome (lent_header w h.now (last (belonging (holder_of holder))))).answer }
{
    if let Err(refusal) = bits_refusal(h, w, w) {
        return refusal;
    }
    match holder {
        None => Answer::no(),
        Some(i) => Answer::holding(i),
    }
}

// Whether the header h of w positions is in the difference that is lent as one kind 2 record.
pub fn diff_member(w: usize, s: &[u8], h: &[u8]) -> Answer
    ensures { result ≡ (diff_member w s.now h.now).answer }
{
    match one_difference(w, s) {
        Ok(difference) => told(h, w, difference.holds(&spelled(h)).then_some(0)),
        Err(refusal) => refusal,
    }
}

// Whether the header h is in a difference of the region file, and the first that it is in. The whole file is read before the answer, and once.
pub fn region_member(s: &[u8], h: &[u8]) -> Answer
    ensures { result ≡ (region_member s.now h.now).answer }
{
    match ask_file(s, &spelled(h)) {
        Ok(asked) => told(h, asked.width, asked.holder),
        Err(refused) => refused.of_operand(1),
    }
}
