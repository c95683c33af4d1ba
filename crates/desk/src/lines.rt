// The lines of the input, read into a lent buffer.
ghost use Rattle.std.specs.Prelude.{◌≡◌, ◌+◌, ◌-◌, ◌≤◌, ◌<◌, length, min, take, drop, slice_index, IsTrue, ◌↔◌, IsNone, IfOk, IfSome, OnErr};
ghost use Rattle.std.specs.Io.KnownBytes.{Consumes, IsAtEnd, Keeps};

use std::io::{Read, Result};
use std::ops::Range;

// A line of more bytes is no question.
pub(crate) const LONGEST: usize = 524288;

// A line begins at `start`, no newline was found up to `seen`, and the bytes read end at `end`.
#[derive(Drop)]
pub(crate) struct Lines<'a> {
    pub(crate) input: &'a mut [u8],
    start: usize,
    seen: usize,
    end: usize,
    ghost begun: { start ≤ seen },
    ghost looked_at: { seen ≤ end },
    ghost within: { end ≤ length input.now },
}

// One read behind the first `kept` bytes, which stay; it gives how many bytes it reads, 0 at the input's end.
fn read_behind<R: Read>(reader: &mut R, input: &mut [u8], kept: usize) -> Result<usize>
    requires { kept ≤ length input.old }
    ensures fits { IfOk result (λ n. kept + n ≤ length input.old) }
    ensures front { take kept input.new ≡ take kept input.old }
    ensures bytes { IfOk result (λ n. Consumes (R.remaining reader.old) (R.remaining reader.new) (take n (drop kept input.new))) }
    ensures end { IfOk result (λ n. n ≡ 0 → kept < length input.old → IsAtEnd (R.remaining reader.new)) }
    ensures err { OnErr result (Keeps (R.remaining reader.old) (R.remaining reader.new)) }
{
    reader.read(&mut input[kept..])
}

impl<'a> Lines<'a> {
    // Before anything is read.
    pub(crate) fn new(input: &'a mut [u8]) -> Lines<'a>
        ensures { result.end ≡ 0 }
    {
        Lines {
            input,
            start: 0,
            seen: 0,
            end: 0,
        }
    }

    // The first newline that is read.
    fn newline(&self) -> Option<usize>
        ensures { IfSome result (λ i. (self.now.seen ≤ i) × (i < self.now.end) × (slice_index self.now.input.now i ≡ 10)) }
    {
        let (seen, end) = (self.seen, self.end);
        let length = self.input[seen..end].iter().position(|b| *b == b'\n')?;
        Some(seen + length)
    }

    // Where the next line of which the newline is read lies in the buffer, without it.
    pub(crate) fn next(&mut self) -> Option<Range<usize>>
        ensures within { IfSome result (λ r. (r.start ≤ r.end) × (r.end ≤ length self.new.input.now)) }
        ensures line { IfSome result (λ r. (r.start ≡ self.old.start) × (slice_index self.old.input.now r.end ≡ 10)) }
        ensures behind { IfSome result (λ r. self.new.start ≡ r.end + 1) }
        ensures none { IsNone result → self.new.start ≡ self.old.start }
        ensures read { self.new.end ≡ self.old.end }
        ensures kept { self.new.input.now ≡ self.old.input.now }
    {
        let start = self.start;
        let newline = self.newline()?;
        self.start = newline + 1;
        self.seen = newline + 1;
        Some(start..newline)
    }

    // Where the line lies whose newline is not read.
    pub(crate) fn rest(&self) -> Range<usize>
        ensures within { (result.start ≤ result.end) × (result.end ≤ length self.now.input.now) }
        ensures rest { (result.start ≡ self.now.start) × (result.end ≡ self.now.end) }
    {
        self.start..self.end
    }

    // Moves the line's beginning to the front of the buffer. No more of it is kept than shows that it is too long.
    fn to_front(&mut self)
        ensures start { self.new.start ≡ 0 }
        ensures kept { self.new.end ≡ min (self.old.end - self.old.start) (LONGEST + 1) }
        ensures bytes { take self.new.end self.new.input.now ≡ take self.new.end (drop self.old.start self.old.input.now) }
    {
        let (start, end) = (self.start, self.end);
        let kept = (end - start).min(LONGEST + 1);
        if 0 < start {
            self.input.copy_within(start..start + kept, 0);
        }
        self.start = 0;
        self.seen = kept;
        self.end = kept;
    }

    // Reads on behind the bytes up to `end`, and says whether there was more to read.
    fn read_more<R: Read>(&mut self, reader: &mut R) -> Result<bool>
        ensures more { IfOk result (λ b. IsTrue b ↔ self.old.end < self.new.end) }
        ensures front { take self.old.end self.new.input.now ≡ take self.old.end self.old.input.now }
        ensures unread { OnErr result (Keeps (R.remaining reader.old) (R.remaining reader.new)) }
    {
        let end = self.end;
        let got = read_behind(reader, self.input, end)?;
        self.end = end + got;
        Ok(0 < got)
    }

    // Reads on in the line whose newline is not read. A read that fails leaves what is not read yet.
    pub(crate) fn refill<R: Read>(&mut self, reader: &mut R) -> Result<bool>
        ensures unread { OnErr result (Keeps (R.remaining reader.old) (R.remaining reader.new)) }
    {
        self.to_front();
        self.read_more(reader)
    }
}
