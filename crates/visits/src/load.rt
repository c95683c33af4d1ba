// Cubes of bytes brought into words, and back.
ghost use Rattle.std.specs.Prelude.{◌≡◌, ◌+◌, ◌-◌, ◌*◌, ◌≤◌, ◌<◌, length};
ghost use Rattle.model.specs.Padding.{pad};
ghost use Rattle.format.specs.Bytes.{codes};
ghost use Rattle.visits.specs.Words.{cube_of_words};
ghost use Rattle.visits.specs.Loading.{cut_in, HoldsBytes, Loaded};

use super::cuts::Cuts;
use cube::Row;

// The cut of row m: the last cut is row 0.
pub(crate) fn cut_of<'a>(cuts: Row<'a>, m: usize) -> &'a [u8]
    requires { m < cuts.count }
    ensures { result.now ≡ cut_in cuts.entry m }
{
    let start = (cuts.count - 1 - m) * cuts.size;
    &cuts.bytes[start..start + cuts.size]
}

// The word of eight bytes from byte b on.
fn word(bytes: &[u8; 80], b: usize) -> u64
    requires { b ≤ 72 }
    ensures { HoldsBytes bytes.now 8 b result }
{
    let mut eight = [0u8; 8];
    eight.copy_from_slice(&bytes[b..b + 8]);
    u64::from_be_bytes(eight)
}

// The cube with free places behind its positions.
fn padded(cube: &[u8]) -> [u8; 80]
    requires { length cube.now ≤ 80 }
    ensures { codes result ≡ pad (320 - 4 * length cube.now) (codes cube.now) }
{
    let mut bytes = [255u8; 80];
    bytes[..cube.len()].copy_from_slice(cube);
    bytes
}

// The cube in words: free places behind its positions.
pub(crate) fn load(cube: &[u8]) -> [u64; 10]
    requires { length cube.now ≤ 80 }
    ensures { cube_of_words result ≡ pad (320 - 4 * length cube.now) (codes cube.now) }
{
    let bytes = padded(cube);
    let mut ws = [0u64; 10];
    for w in 0..10 {
        ws[w] = word(&bytes, 8 * w);
    }
    ws
}

// The cuts in rows of words.
pub(crate) fn load_cuts(table: &mut [[u64; 10]], cuts: Cuts)
    requires { cuts.row.count ≤ length table.old }
    ensures { Loaded cuts.entry.row table.new cuts.entry.row.count }
{
    for m in 0..cuts.row.count {
        table[m] = load(cut_of(cuts.row, m));
    }
}

// The bytes of a cube in words.
pub(crate) fn unload(ws: &[u64; 10]) -> [u8; 80]
    ensures { codes result ≡ cube_of_words ws.now }
{
    let mut bytes = [0u8; 80];
    for (w, word) in ws.iter().enumerate() {
        bytes[8 * w..8 * w + 8].copy_from_slice(&word.to_be_bytes());
    }
    bytes
}
