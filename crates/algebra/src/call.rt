// The calls that write regions. Each reads its operands, and leaves the rest to one engine.
// Kept: each takes s, t and out one by one, and two of them differ in their task alone: their signatures are what the desk and the statement page call.
ghost use Rattle.std.specs.Prelude.{◌≡◌, length};
ghost use Rattle.format.specs.Told.{over};
ghost use Rattle.format.specs.Calls.{region_tidy, diff_intersect, region_intersect, diff_less, region_less};

use super::result::write_region;
use super::run::Task;
use super::stop::Operation;
use answer::{Answer, Refusal};
use region::{check_file, first_at, front_at, record_refusal, two_refusal};

// Writes the region tidied, as a region file.
pub fn region_tidy(s: &[u8], out: &mut [u8]) -> Answer
    ensures answer { result ≡ (region_tidy s.now (length out.old)).answer }
    ensures bytes { out.new ≡ over out.old (region_tidy s.now (length out.old)).bytes }
{
    let file = match check_file(s) {
        Ok(file) => file,
        Err(refused) => return refused.of_operand(1),
    };
    let task = Task {
        operation: Operation::Tidy,
        width: file.width,
        s,
        first: first_at(s),
        t: s,
        start: 0,
    };
    write_region(&task, out)
}

// Writes the headers that are in both differences, as a tidied region file.
pub fn diff_intersect(w: usize, s: &[u8], t: &[u8], out: &mut [u8]) -> Answer
    ensures answer { result ≡ (diff_intersect w s.now t.now (length out.old)).answer }
    ensures bytes { out.new ≡ over out.old (diff_intersect w s.now t.now (length out.old)).bytes }
{
    if let Err(refusal) = two_refusal(w, s, t) {
        return refusal;
    }
    let task = Task {
        operation: Operation::Intersect,
        width: w,
        s,
        first: 0,
        t,
        start: 0,
    };
    write_region(&task, out)
}

// Writes the headers that are in the first difference and not in the second, as a tidied region file.
pub fn diff_less(w: usize, s: &[u8], t: &[u8], out: &mut [u8]) -> Answer
    ensures answer { result ≡ (diff_less w s.now t.now (length out.old)).answer }
    ensures bytes { out.new ≡ over out.old (diff_less w s.now t.now (length out.old)).bytes }
{
    if let Err(refusal) = two_refusal(w, s, t) {
        return refusal;
    }
    let base = front_at(t, 0).base;
    let task = Task {
        operation: Operation::Less(base),
        width: w,
        s,
        first: 0,
        t,
        start: base,
    };
    write_region(&task, out)
}

// Writes the headers that are in both regions, as a tidied region file.
pub fn region_intersect(s: &[u8], t: &[u8], out: &mut [u8]) -> Answer
    ensures answer { result ≡ (region_intersect s.now t.now (length out.old)).answer }
    ensures bytes { out.new ≡ over out.old (region_intersect s.now t.now (length out.old)).bytes }
{
    let first = match check_file(s) {
        Ok(file) => file,
        Err(refused) => return refused.of_operand(1),
    };
    let second = match check_file(t) {
        Ok(file) => file,
        Err(refused) => return refused.of_operand(2),
    };
    if first.width != second.width {
        return Refusal::TwoWidths.into();
    }
    let task = Task {
        operation: Operation::Intersect,
        width: first.width,
        s,
        first: first_at(s),
        t,
        start: first_at(t),
    };
    write_region(&task, out)
}

// Writes the headers that are in the region and not in the difference, as a tidied region file.
pub fn region_less(s: &[u8], t: &[u8], out: &mut [u8]) -> Answer
    ensures answer { result ≡ (region_less s.now t.now (length out.old)).answer }
    ensures bytes { out.new ≡ over out.old (region_less s.now t.now (length out.old)).bytes }
{
    let file = match check_file(s) {
        Ok(file) => file,
        Err(refused) => return refused.of_operand(1),
    };
    if let Err(refusal) = record_refusal(file.width, t, 2) {
        return refusal;
    }
    let base = front_at(t, 0).base;
    let task = Task {
        operation: Operation::Less(base),
        width: file.width,
        s,
        first: first_at(s),
        t,
        start: base,
    };
    write_region(&task, out)
}
