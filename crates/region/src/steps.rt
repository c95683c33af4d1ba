// Reading on: one difference after another, on plain bytes and a place.
ghost use Rattle.std.specs.Prelude.{◌≡◌};
ghost use Rattle.format.specs.Calls.{read_on, start_of};
ghost use Rattle.region.specs.Viewing.{stepped, StepIs};

use super::record::read_record;
use super::width::{first_at, width_fault, width_of};
use answer::Answer;

// What one step gives: its result, and the place of the next step.
// Kept: FORMAT 94 to 97 and the contract of `read_on` name both parts, at a refusal too.
#[derive(Clone, Copy, Debug, PartialEq, Eq)]
pub struct Step {
    pub answer: Answer,
    pub place: usize,
}

// Where a step looks for a record.
fn start_of(s: &[u8], place: usize) -> usize
    ensures { result ≡ start_of s.now place }
{
    if place == 0 { first_at(s) } else { place }
}

// The step at a place, or what it answers where it goes no further.
fn step_from(s: &[u8], place: usize) -> Result<Step, Answer>
    ensures { StepIs s.now place result }
{
    if let Err(refusal) = width_fault(s) {
        return Err(refusal.of_operand(1, 0));
    }
    let at = start_of(s, place);
    if at == s.len() {
        return Err(Answer::no());
    }
    match read_record(s, at, width_of(s), 0) {
        Ok(record) => Ok(Step {
            answer: Answer::placed(at),
            place: record.next,
        }),
        Err(refusal) => Err(refusal.of_operand(1, at)),
    }
}

// The difference at a place of a region file: 1 with its offset and the place after it; 2 at the end; or a refusal. Place 0 is the first difference.
pub fn read_on(s: &[u8], place: usize) -> Step
    ensures { stepped result ≡ read_on s.now place }
{
    match step_from(s, place) {
        Ok(step) => step,
        Err(answer) => Step { answer, place },
    }
}
