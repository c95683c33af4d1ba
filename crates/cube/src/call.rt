// The public questions about two lent cubes.
// Kept: each takes w, a and b one by one, and asks its own question of them: its signature is what the desk and the statement page call.
ghost use Rattle.std.specs.Prelude.{◌≡◌, length};
ghost use Rattle.answer.specs.Refusals.{Tested};
ghost use Rattle.format.specs.Rows.{outcome};
ghost use Rattle.format.specs.Told.{over, cube_tests, two_cubes};
ghost use Rattle.format.specs.Calls.{cube_meet, cube_in, wider_number};
ghost use Rattle.cube.specs.Call.{WiderIs};

use super::fault::lent_fault;
use super::pair::{lies_in, meet_into, meets};
use super::size::width_refusal;
use answer::{Answer, Refusal};

// The refusal of a lent cube, which is the operand of that number.
fn cube_refusal(w: usize, c: &[u8], operand: u8) -> Result<(), Answer>
    ensures { Tested (outcome (cube_tests w c.now operand)) result }
{
    Refusal::of_lent(lent_fault(c, w), operand)
}

// The refusal of a width given directly or of one of two lent cubes.
fn pair_refusal(w: usize, a: &[u8], b: &[u8]) -> Result<(), Answer>
    ensures { Tested (outcome (two_cubes w a.now b.now)) result }
{
    width_refusal(w)?;
    cube_refusal(w, a, 1)?;
    cube_refusal(w, b, 2)
}

// Writes the cube of the headers that are in both; no, and nothing is written, where there is none.
pub fn cube_meet(w: usize, a: &[u8], b: &[u8], out: &mut [u8]) -> Answer
    ensures answer { result ≡ (cube_meet w a.now b.now (length out.old)).answer }
    ensures bytes { out.new ≡ over out.old (cube_meet w a.now b.now (length out.old)).bytes }
{
    if let Err(refusal) = pair_refusal(w, a, b) {
        return refusal;
    }
    if !meets(a, b) {
        return Answer::no();
    }
    if out.len() < a.len() {
        return Refusal::Room.into();
    }
    meet_into(a, b, out);
    Answer::wrote(a.len())
}

// Whether every header of the first cube is in the second.
pub fn cube_in(w: usize, a: &[u8], b: &[u8]) -> Answer
    ensures { result ≡ (cube_in w a.now b.now).answer }
{
    if let Err(refusal) = pair_refusal(w, a, b) {
        return refusal;
    }
    if lies_in(a, b) {
        return Answer::yes();
    }
    Answer::no()
}

// Whether one of two cubes holds the other.
pub fn wider_number(w: usize, a: &[u8], b: &[u8]) -> Answer
    ensures { result ≡ (wider_number w a.now b.now).answer }
{
    if let Err(refusal) = pair_refusal(w, a, b) {
        return refusal;
    }
    if lies_in(b, a) || lies_in(a, b) {
        return Answer::yes();
    }
    Answer::no()
}

// The wider of two cubes, as the very bytes lent: the first where the second lies in it, else the second where the
// first lies in it, else nothing (FORMAT 89, 90).
pub fn wider<'a>(w: usize, a: &'a [u8], b: &'a [u8]) -> &'a [u8]
    ensures { WiderIs w a.entry b.entry result }
{
    let Ok(()) = pair_refusal(w, a, b) else {
        return &a[..0];
    };
    if lies_in(b, a) {
        return a;
    }
    if lies_in(a, b) {
        return b;
    }
    &a[..0]
}
