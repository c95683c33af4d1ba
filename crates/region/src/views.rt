// Cubes of a region file by difference and index, as stretches of the file.
// Kept: three calls take s, d and i one by one, since their signatures are what the desk and the statement page call.
ghost use Rattle.std.specs.Prelude.{◌≡◌, ◌+◌, ◌≤◌, length};
ghost use Rattle.format.specs.Calls.{view};
ghost use Rattle.region.specs.Viewing.{viewed, PlaceIs, StretchIs};

use super::files::check_file;
use super::front::front_at;
use super::offset::seek;
use answer::{Answer, Refusal};
use cube::cube_len;

// Where a cube lies: the number of the question, and the stretch, of length 0 where there is no such cube.
// Kept: FORMAT 88 to 91 and the contract of `stretch_of` name the three parts, at a refusal too.
#[derive(Clone, Copy, Debug, PartialEq, Eq)]
pub struct Stretch {
    pub answer: Answer,
    pub start: usize,
    pub size: usize,
}

// Where cube i of difference d lies in a region file, or why there is none.
fn place_of(s: &[u8], d: usize, i: usize) -> Result<Stretch, Answer>
    ensures { PlaceIs s.now d i result }
{
    let file = match check_file(s) {
        Ok(file) => file,
        Err(refused) => return Err(refused.of_operand(1)),
    };
    if file.count <= d {
        return Err(Refusal::Index.into());
    }
    let front = front_at(s, seek(s, d));
    if front.cuts < i {
        return Err(Refusal::Index.into());
    }
    let size = cube_len(file.width);
    Ok(Stretch {
        answer: Answer::yes(),
        start: front.base + i * size,
        size,
    })
}

// Where cube i of difference d lies in a region file; 0 is the base.
pub fn stretch_of(s: &[u8], d: usize, i: usize) -> Stretch
    ensures { (viewed result ≡ view s.now d i) × (result.start + result.size ≤ length s.now) }
{
    match place_of(s, d, i) {
        Ok(stretch) => stretch,
        Err(answer) => Stretch {
            answer,
            start: 0,
            size: 0,
        },
    }
}

// The number of the question for a cube: 1, 23 or the file's refusal.
pub fn view_number(s: &[u8], d: usize, i: usize) -> Answer
    ensures { result ≡ (view s.now d i).answer }
{
    stretch_of(s, d, i).answer
}

// Cube i of difference d as that stretch of the file that is lent, of length 0 where there is none.
pub fn view<'a>(s: &'a [u8], d: usize, i: usize) -> &'a [u8]
    ensures { StretchIs s.entry d i result }
{
    let Stretch { start, size, .. } = stretch_of(s, d, i);
    &s[start..start + size]
}
