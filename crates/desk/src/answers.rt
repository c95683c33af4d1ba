// The line that answers a question.
use crate::calls::{Beside, Question};
use crate::lines::LONGEST;
use crate::room;
use crate::text::Text;
use std::io::{Result, Write};

// Lends the room to the call, and holds the line that says what it gave.
fn answer<P: Print>(question: Question<'_>, room: &mut [u8], text: &mut Text<'_, P>) -> Result<()> {
    room::fill(room);
    let (answer, beside) = question.call.ask(room);
    let written = answer.written;
    write!(
        text,
        "{} {} {} {} {} {} ",
        answer.number, answer.operand, answer.offset, answer.count, answer.written, answer.index
    )?;
    match beside {
        Beside::Written => text.put_hex(room.get(..written).unwrap_or(&[]))?,
        Beside::Cube(cube) => text.put_hex(cube)?,
        Beside::Stretch(cube, start) => {
            text.put_hex(cube)?;
            write!(text, " {start}")?;
        }
        Beside::Place(place) => write!(text, "{place}")?,
    }
    if room::touched(room, written) {
        text.write_all(b" TOUCHED")?;
    }
    text.write_all(b"\n")
}

// Answers a line that is given without its newline.
pub(crate) fn answer_line<P: Print>(
    line: &mut [u8],
    out: &mut [u8],
    text: &mut Text<'_, P>,
) -> Result<()> {
    if line.len() <= LONGEST
        && let Some(question) = Question::read(line)
        && let Some(room) = out.get_mut(..question.room)
    {
        return answer(question, room, text);
    }
    text.write_all(b"unreadable\n")
}
