// Answers questions: on each line of the standard input a call's name and its arguments, for each a line of the standard output.
#![tactic(auto)]

mod answers;
mod calls;
mod lines;
mod room;
mod text;
mod words;

ghost use Rattle.std.specs.Prelude.{OnErr};
ghost use Rattle.std.specs.Io.KnownBytes.{Keeps};

use answers::answer_line;
use lines::{LONGEST, Lines};
use std::io::{Read, Result, Write};
use std::ops::ControlFlow;
use text::Text;
use words::MOST_ROOM;

// Answers the next line, or reads on where its newline is not there yet. All that is held is written out before more is read. A read or a write that
// fails leaves what is not read yet.
fn turn<R: Read, P: Print>(
    reader: &mut R,
    lines: &mut Lines<'_>,
    out: &mut [u8],
    text: &mut Text<'_, P>,
) -> Result<ControlFlow<()>>
    ensures unread { OnErr result (Keeps (R.remaining reader.old) (R.remaining reader.new)) }
{
    if let Some(line) = lines.next() {
        answer_line(&mut lines.input[line], out, text)?;
        return Ok(ControlFlow::Continue(()));
    }
    text.flush()?;
    if lines.refill(reader)? {
        Ok(ControlFlow::Continue(()))
    } else {
        Ok(ControlFlow::Break(()))
    }
}

// Answers all lines, the last one also where it has no newline. No input has as many lines as there are turns.
fn answer_all<P: Print>(
    reader: &mut impl Read,
    lines: &mut Lines<'_>,
    out: &mut [u8],
    text: &mut Text<'_, P>,
) -> Result<()> {
    for _ in 0..u64::MAX {
        if turn(reader, lines, out, text)?.is_break() {
            break;
        }
    }
    let last = lines.rest();
    if !last.is_empty() {
        answer_line(&mut lines.input[last], out, text)?;
    }
    text.flush()
}

// The input's buffer has room for a line that is too long and for 65,535 bytes to be read behind it; the text's for the digits of all that a call can
// write.
fn main(rt: HostRuntime) -> Result<()> {
    let mut input = [0u8; LONGEST + 65536];
    let mut out = [0u8; MOST_ROOM];
    let mut text = [0u8; 2 * MOST_ROOM];
    let mut lines = Lines::new(&mut input);
    let mut text = Text::new(&rt, &mut text);
    answer_all(&mut rt.stdin(), &mut lines, &mut out, &mut text)
}
