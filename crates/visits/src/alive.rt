// The cuts left that a piece meets, as the digits of a word.
ghost use Rattle.std.specs.Prelude.{◌≡◌, suc, ◌+◌, ◌-◌, ◌*◌, ◌^◌, ◌≤◌, ◌<◌, length, get_or};
ghost use Rattle.std.specs.Int.Bits.{bit_and, bit_xor};

// The highest digit of a word that has one.
pub(crate) fn top(x: u64) -> usize
    requires { 0 < x }
    ensures { (result < 64) × (x < 2 ^ suc result) × (2 ^ result ≤ x) }
{
    x.ilog2() as usize
}

// The digit of row n.
pub(crate) fn digit_of(n: usize) -> u64
    requires { n < 64 }
    ensures { result ≡ 2 ^ n }
{
    1u64 << n
}

// The word x without its highest digit n.
pub(crate) fn after_top(x: u64, n: usize) -> u64
    requires { (n < 64) × (2 ^ n ≤ x) }
    ensures { result ≡ x - 2 ^ n }
{
    x - (1u64 << n)
}

// The digits of `alive` that the code v, a value, leaves at position i.
pub(crate) fn narrow(alive: u64, against: &[u64; 640], i: usize, v: u64) -> u64
    requires { (i < 320) × (1 ≤ v) × (v ≤ 2) }
    ensures { result ≡ bit_xor alive (bit_and alive (get_or against.now (2 * i + (v - 1)) 0)) }
{
    alive ^ (alive & against[2 * i + (v as usize - 1)])
}
