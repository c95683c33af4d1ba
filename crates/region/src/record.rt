// The reader of a kind 2 record.
ghost use Rattle.std.specs.Prelude.{◌≡◌, true, ◌≤◌};
ghost use Rattle.answer.specs.Refusals.{code};
ghost use Rattle.format.specs.Limits.{widest};
ghost use Rattle.format.specs.Rows.{outcome};
ghost use Rattle.format.specs.Records.{number_rows, difference_fault};
ghost use Rattle.cube.specs.Row.{slices_of};
ghost use Rattle.region.specs.Reader.{slices_fault, ReadIs};

use super::difference::Difference;
use super::frame::Framed;
use super::limits::{COUNTED, DIFFERENCE_KIND, MOST_CUTS, MOST_DIFFERENCES};
use answer::Refusal;
use cube::{Row, cube_fault, cube_len};

// What the numbers of a kind 2 record say is wrong with it, before its cubes are looked at. No two bytes say the length of a cube above 65,535 bytes.
fn numbers_fault(record: Framed, w: usize, n: usize, alone: bool) -> Result<(), Refusal>
    ensures { code result ≡ outcome (number_rows alone w n record.entry.bytes.now record.entry.at) }
{
    record.frame_fault(DIFFERENCE_KIND)?;
    if MOST_DIFFERENCES <= n {
        return Err(Refusal::Differences);
    }
    let front = record.front;
    let length = usize::from(front.length);
    if length < COUNTED {
        return Err(Refusal::Length);
    }
    if MOST_CUTS < front.cuts {
        return Err(Refusal::Cuts);
    }
    let q = cube_len(w);
    if 65535 < q {
        return Err(Refusal::Length);
    }
    if length != COUNTED + (front.cuts + 1) * q {
        return Err(Refusal::Length);
    }
    if alone && front.next != record.bytes.len() {
        return Err(Refusal::Length);
    }
    Ok(())
}

// What is wrong with the first bad one of some cubes of w positions.
fn cubes_fault(cubes: Row, w: usize) -> Result<(), Refusal>
    ensures { code result ≡ slices_fault w (slices_of cubes.entry) }
{
    for cube in cubes {
        cube_fault(cube, w)?;
    }
    Ok(())
}

// What is wrong with a kind 2 record, with n differences before it. `alone`: nothing may follow it.
fn record_fault(record: Framed, w: usize, n: usize, alone: bool) -> Result<(), Refusal>
    ensures { code result ≡ difference_fault alone w n record.entry.bytes.now record.entry.at }
{
    numbers_fault(record, w, n, alone)?;
    let front = record.front;
    let cubes = Row {
        bytes: &record.bytes[front.base..],
        size: cube_len(w),
        count: front.cuts + 1,
    };
    cubes_fault(cubes, w)
}

// What is wrong with a record that is lent alone.
pub(crate) fn alone_fault(s: &[u8], w: usize) -> Result<(), Refusal>
    ensures { code result ≡ difference_fault true w 0 s.now 0 }
{
    record_fault(Framed::read(s, 0), w, 0, true)
}

// A record of a file: its difference, and where the next one starts.
#[derive(Clone, Copy, Debug, PartialEq, Eq)]
pub(crate) struct Record<'a> {
    pub(crate) difference: Difference<'a>,
    pub(crate) next: usize,
}

// Reads the record at an offset of a file of that width, with n differences before it.
pub(crate) fn read_record<'a>(
    s: &'a [u8],
    at: usize,
    w: usize,
    n: usize,
) -> Result<Record<'a>, Refusal>
    requires { w ≤ widest }
    ensures { ReadIs w n s.now at result }
{
    let record = Framed::read(s, at);
    record_fault(record, w, n, false)?;
    let front = record.front;
    Ok(Record {
        difference: Difference::at(s, front, cube_len(w)),
        next: front.next,
    })
}
