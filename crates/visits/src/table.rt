// The words that a long walk needs beside its cuts: against which cuts a value at a position is, and which cuts the base meets.
ghost use Rattle.std.specs.Prelude.{◌≡◌, ℕ, ◌+◌, ◌*◌, ◌^◌, ◌≤◌, ◌<◌, length, get_or};
ghost use Rattle.format.specs.Bytes.{codes};
ghost use Rattle.visits.specs.Words.{cube_of_words};
ghost use Rattle.visits.specs.Alive.{Against};
ghost use Rattle.visits.specs.Loading.{Entered, Met};

use super::alive::digit_of;
use super::load::cut_of;
use super::opening::next_open;
use super::words::{given, number_in};
use cube::{Row, meets};

// Enters a cut, whose digit is `one`, at each value that it clashes with.
fn enter(against: &mut [u64; 640], cut: &[u64; 10], one: u64)
    requires { (k : ℕ) → k < 640 → get_or against.old k 0 + one < 2 ^ 64 }
    ensures { Entered against.old (cube_of_words cut.now) one against.new }
{
    let mut near = [u64::MAX; 10];
    let mut next = next_open(&near, cut, 0);
    while let Some(i) = next {
        let w = i / 32;
        let y = number_in(cut, i);
        against[2 * i + (2 - y as usize)] += one;
        near[w] = given(near[w], i % 32, y);
        next = next_open(&near, cut, w);
    }
}

// Enters the cuts of the first n rows.
pub(crate) fn enter_all(against: &mut [u64; 640], cuts: &[[u64; 10]], n: usize)
    requires { (n ≤ 64) × (n ≤ length cuts.now) × ((k : ℕ) → get_or against.old k 0 ≡ 0) }
    ensures { Against cuts.now n against.new }
{
    for m in 0..n {
        enter(against, &cuts[m], digit_of(m));
    }
}

// Which of the cuts of the first n rows the piece meets, the last cut being the digit 1.
pub(crate) fn alive_of(piece: &[u8], cuts: Row, n: usize) -> u64
    requires { (n ≤ 64) × (n ≤ cuts.count) }
    ensures { Met cuts.entry (codes piece.now) n result }
{
    let mut x = 0;
    for m in 0..n {
        if meets(piece, cut_of(cuts, m)) {
            x += digit_of(m);
        }
    }
    x
}
