// Whether no header is in a difference or a region, or one that is.
// Kept: the calls take s, allowance and out one by one, since their signatures are what the desk and the statement page call.
ghost use Rattle.std.specs.Prelude.{◌≡◌, ◌+◌, ◌^◌, ◌<◌, length};
ghost use Rattle.format.specs.Bytes.{cube_len};
ghost use Rattle.format.specs.Records.{width_of};
ghost use Rattle.format.specs.Files.{region_in};
ghost use Rattle.format.specs.Told.{over};
ghost use Rattle.format.specs.Calls.{diff_empty, region_empty};
ghost use Rattle.region.specs.Reader.{AcceptedIs};
ghost use Rattle.walk.specs.Ending.{Ended, whole_walks};

use super::record::walk_record;
use super::stop::{Stop, covered, fresh};
use super::told::tell;
use answer::{Answer, Refusal};
use cube::{cube_len, header_len};
use region::{Difference, File, check_file, first_at, front_at, one_difference};
use visits::Allowance;

// Whether no header is in the difference of a record: yes; no, and a header that is in is written over the front of out; or undecided within the
// allowance.
pub fn diff_empty(w: usize, s: &[u8], allowance: u32, out: &mut [u8]) -> Answer
    ensures answer { result ≡ (diff_empty w s.now allowance (length out.old)).answer }
    ensures bytes { out.new ≡ over out.old (diff_empty w s.now allowance (length out.old)).bytes }
{
    let difference = match one_difference(w, s) {
        Ok(difference) => difference,
        Err(refusal) => return refusal,
    };
    if out.len() < header_len(w) {
        return Refusal::Room.into();
    }
    let outcome = walk_record(difference, fresh(allowance));
    tell(covered(outcome, 0), w, out)
}

// Walks the differences of an accepted file one after another on one allowance, up to the first that is not covered.
fn walk_file(s: &[u8], file: File, a: Allowance) -> Result<Allowance, Stop>
    requires { AcceptedIs s.now file × (a.left + a.spent < 2 ^ 32) }
    ensures { Ended (cube_len (width_of s.now)) a 0 (whole_walks (width_of s.now) (region_in s.now)) result }
{
    let q = cube_len(file.width);
    let mut left = a;
    let mut at = first_at(s);
    for i in 0..file.count {
        let front = front_at(s, at);
        let difference = Difference::new(s, front, q).unwrap();
        left = covered(walk_record(difference, left), i as u16)?;
        at = front.next;
    }
    Ok(left)
}

// Whether no header is in a region file: yes; no, and a header that is in is written over the front of out; or
// undecided within the allowance.
pub fn region_empty(s: &[u8], allowance: u32, out: &mut [u8]) -> Answer
    ensures answer { result ≡ (region_empty s.now allowance (length out.old)).answer }
    ensures bytes { out.new ≡ over out.old (region_empty s.now allowance (length out.old)).bytes }
{
    let file = match check_file(s) {
        Ok(file) => file,
        Err(refused) => return refused.of_operand(1),
    };
    if out.len() < header_len(file.width) {
        return Refusal::Room.into();
    }
    tell(walk_file(s, file, fresh(allowance)), file.width, out)
}
