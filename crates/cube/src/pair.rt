// Two cubes, byte by byte. The loops have no table and no early exit, so that they become vector code, and go by the place: zipped iterators cost each
// short cube some instructions more.
ghost use Rattle.std.specs.Prelude.{◌≡◌, length};
ghost use Rattle.model.specs.Cube.{shares};
ghost use Rattle.format.specs.Bytes.{codes};
ghost use Rattle.cube.specs.Pair.{lies_in, and_into};

// Whether two cubes share a header: no code of their meet is 0. Cubes of different lengths share none.
pub fn meets(a: &[u8], b: &[u8]) -> bool
    ensures { result ≡ shares (codes a.now) (codes b.now) }
{
    if a.len() != b.len() {
        return false;
    }
    let mut bad = 0u8;
    for i in 0..a.len() {
        let both = a[i] & b[i];
        bad |= ((both | (both >> 1)) & 0x55) ^ 0x55;
    }
    bad == 0
}

// Whether the first cube lies in the second: meeting the second changes nothing. Cubes of different lengths do not.
pub fn lies_in(a: &[u8], b: &[u8]) -> bool
    ensures { result ≡ lies_in a.now b.now }
{
    if a.len() != b.len() {
        return false;
    }
    let mut bad = 0u8;
    for i in 0..a.len() {
        bad |= a[i] ^ (a[i] & b[i]);
    }
    bad == 0
}

// Writes the meet of two cubes over the front of out, as long as all three have a byte.
pub fn meet_into(a: &[u8], b: &[u8], out: &mut [u8])
    ensures { out.new ≡ and_into a.now b.now out.old }
{
    for i in 0..a.len().min(b.len()).min(out.len()) {
        out[i] = a[i] & b[i];
    }
}
