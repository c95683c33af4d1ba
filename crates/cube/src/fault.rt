// What is wrong with the bytes of a cube.
ghost use Rattle.std.specs.Prelude.{◌≡◌, [], ◌∷◌, ◌<◌};
ghost use Rattle.answer.specs.Refusals.{code};
ghost use Rattle.format.specs.Bytes.{codes, all_free, cube_fault, lent_fault};

use super::code::code_zero;
use super::pair::meets;
use super::size::cube_len;
use answer::Refusal;

// Whether every place of every byte holds code 3.
fn all_free(c: &[u8]) -> bool
    ensures { result ≡ all_free (codes c.now) }
{
    let mut bad = 0u8;
    for b in c {
        bad |= b ^ 255;
    }
    bad == 0
}

// What is wrong with a byte whose first places are w positions and whose others are unused. Most bytes here are all free.
fn byte_fault(b: u8, w: usize) -> Result<(), Refusal>
    requires { w < 4 }
    ensures { code result ≡ cube_fault w (b ∷ []) }
{
    if b == 255 {
        return Ok(());
    }
    let fill = 255u8 >> (2 * w);
    if code_zero(b | fill) {
        return Err(Refusal::CodeZero);
    }
    if b & fill != fill {
        return Err(Refusal::UnusedPlace);
    }
    Ok(())
}

// What is wrong with the cube of w positions in c: code 0 in it, or another code than 3 in an unused place. A byte past the positions holds unused places
// alone. Bytes hold code 0 exactly when they share no header with themselves, so `meets` looks at all those that hold positions alone.
pub fn cube_fault(c: &[u8], w: usize) -> Result<(), Refusal>
    ensures { code result ≡ cube_fault w c.now }
{
    let whole = w / 4;
    if c.len() <= whole {
        if meets(c, c) {
            return Ok(());
        }
        return Err(Refusal::CodeZero);
    }
    let front = &c[..whole];
    if !meets(front, front) {
        return Err(Refusal::CodeZero);
    }
    byte_fault(c[whole], w % 4)?;
    if all_free(&c[whole + 1..]) {
        return Ok(());
    }
    Err(Refusal::UnusedPlace)
}

// What is wrong with a lent cube: its length, or what `cube_fault` says.
pub(crate) fn lent_fault(c: &[u8], w: usize) -> Result<(), Refusal>
    ensures { code result ≡ lent_fault w c.now }
{
    if c.len() != cube_len(w) {
        return Err(Refusal::CubeLength);
    }
    cube_fault(c, w)
}
