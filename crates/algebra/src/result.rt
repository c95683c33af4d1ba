// A result is measured, refused or written.
ghost use Rattle.std.specs.Prelude.{length};
ghost use Rattle.format.specs.Told.{Permitted};
ghost use Rattle.algebra.specs.Results.{told_of, answer_of};

use super::run::Task;
use answer::{Answer, Refusal};
use region::{MOST_DIFFERENCES, WIDTH_RECORD, put_width};

// Runs the task with no room, so that it only measures; then, if nothing is to be refused, once more over the buffer behind kind 1. Returns how many bytes
// are written.
fn write(task: &Task, out: &mut [u8]) -> Result<usize, Refusal>
    ensures { Permitted (told_of task.now (length out.old)) out.old (answer_of result) out.new }
{
    let sum = task.run(&mut out[..0])?;
    if MOST_DIFFERENCES < sum.count {
        return Err(Refusal::Differences);
    }
    let size = sum.size + WIDTH_RECORD;
    if out.len() < size {
        return Err(Refusal::Room);
    }
    put_width(out, task.width);
    // what was not refused before is not refused now
    task.run(&mut out[WIDTH_RECORD..])?;
    Ok(size)
}

// The answer of a call that writes a region.
pub(crate) fn write_region(task: &Task, out: &mut [u8]) -> Answer
    ensures { Permitted (told_of task.now (length out.old)) out.old result out.new }
{
    match write(task, out) {
        Ok(size) => Answer::wrote(size),
        Err(refusal) => refusal.into(),
    }
}
