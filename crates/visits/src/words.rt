// Cubes of 320 positions in ten words, 32 places to a word.
ghost use Rattle.std.specs.Prelude.{◌≡◌, ◌≤◌, ◌<◌};
ghost use Rattle.visits.specs.Words.{place_at, number_in, GivenWord};

// The number of the code at position i.
pub(crate) fn number_in(ws: &[u64; 10], i: usize) -> u64
    requires { i < 320 }
    ensures { (result ≡ number_in ws.now i) × (result < 4) }
{
    (ws[i / 32] >> (62 - 2 * (i % 32))) & 3
}

// The word x with the code v at place k, where it has the code 3.
pub(crate) fn given(x: u64, k: usize, v: u64) -> u64
    requires { (k < 32) × (v ≤ 3) × (place_at x k ≡ 3) }
    ensures { GivenWord x k v result }
{
    x - ((3 - v) << (62 - 2 * k))
}
