// Walks that found nothing, remembered in slots of a table that the call owns.
ghost use Rattle.std.specs.Prelude.{◌≡◌, ℕ, true, ◌^◌, ◌<◌, length, get_or};
ghost use Rattle.std.specs.Int.Bits.{bit_and};
ghost use Rattle.visits.specs.Memory.{LikeWords, Recalls, Keeps, Common, SlotOf};

use super::alive::{after_top, top};

// A walk: what the pieces that are like its piece admit, what the cuts that they meet have in common, these cuts, and how many pieces it has, where
// one is remembered.
#[derive(Clone, Copy, Debug, PartialEq, Eq)]
pub(crate) struct Slot {
    cube: [u64; 10],
    common: [u64; 10],
    alive: u64,
    count: Option<u32>,
}

pub(crate) const EMPTY: Slot = Slot {
    cube: [0; 10],
    common: [0; 10],
    alive: 0,
    count: None,
};

impl Slot {
    // A slot for the walk of a piece that meets the cuts `alive`.
    fn new(near: &[u64; 10], common: [u64; 10], alive: u64, count: u32) -> Self
        ensures { SlotOf near.now common alive count result }
    {
        let mut cube = *near;
        for (w, x) in cube.iter_mut().enumerate() {
            *x |= common[w];
        }
        Self {
            cube,
            common,
            alive,
            count: Some(count),
        }
    }

    // Whether the piece is like the slot's.
    fn is_like(&self, near: &[u64; 10]) -> bool
        ensures { result ≡ true → LikeWords self.now near.now }
    {
        let mut differ = 0;
        for w in 0..10 {
            differ |= (near[w] | self.common[w]) ^ self.cube[w];
        }
        differ == 0
    }
}

// Where a walk of a piece that meets the cuts `alive` is kept: any slot is right.
pub(crate) fn slot_of(alive: u64) -> usize {
    (alive % 251) as usize
}

// How many pieces the walk has, where it is remembered in slot e.
pub(crate) fn look(slots: &[Slot], e: usize, alive: u64, near: &[u64; 10]) -> Option<u32>
    ensures { Recalls slots.now near.now alive result }
{
    let slot = slots.get(e)?;
    if slot.alive != alive {
        return None;
    }
    if !slot.is_like(near) {
        return None;
    }
    slot.count
}

// The words a become a & b.
fn meet(a: &mut [u64; 10], b: &[u64; 10])
    ensures { (w : ℕ) → w < 10 → get_or a.new w 0 ≡ bit_and (get_or a.old w 0) (get_or b.now w 0) }
{
    for (w, x) in a.iter_mut().enumerate() {
        *x &= b[w];
    }
}

// What the cuts `alive` have in common: words that lie in each of them.
fn common(cuts: &[[u64; 10]], alive: u64) -> [u64; 10]
    requires { alive < 2 ^ length cuts.now }
    ensures { Common cuts.now alive result }
{
    let mut m = [u64::MAX; 10];
    let mut x = alive;
    while x != 0 {
        let j = top(x);
        meet(&mut m, &cuts[j]);
        x = after_top(x, j);
    }
    m
}

// The walk of a piece that meets the cuts `alive` found nothing and has `count` pieces: slot e remembers that.
pub(crate) fn keep(
    slots: &mut [Slot],
    e: usize,
    near: &[u64; 10],
    alive: u64,
    count: u32,
    cuts: &[[u64; 10]],
)
    requires { alive < 2 ^ length cuts.now }
    ensures { Keeps cuts.now slots.old near.now alive count slots.new }
{
    if e < slots.len() {
        slots[e] = Slot::new(near, common(cuts, alive), alive, count);
    }
}
