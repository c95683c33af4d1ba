// What writes a record. How a record looks in front of its cubes is said here and in the reading, and nowhere else.
ghost use Rattle.std.specs.Prelude.{◌≡◌};
ghost use Rattle.format.specs.Records.{front_len, width_bytes};
ghost use Rattle.cube.specs.Lay.{put};
ghost use Rattle.region.specs.Writing.{LimitedIs, record_len, put_front, put_record};

use super::limits::{DIFFERENCE_KIND, FRONT, LENGTH, MOST_CUTS, WIDTH_KIND, WIDTH_LENGTH};
use cube::{WIDEST_CUBE, put};

// Puts a kind 1 record over the front of out, if it fits there.
pub fn put_width(out: &mut [u8], w: usize)
    ensures { out.new ≡ put out.old 0 (width_bytes w) }
{
    let [low, high, ..] = w.to_le_bytes();
    put(
        out,
        0,
        &[WIDTH_LENGTH as u8, 0, WIDTH_KIND as u8, 0, low, high],
    );
}

// The bytes in front of the base of a record with k cuts: its length, its kind and its count.
pub fn front_len(k: usize) -> usize
    ensures { result ≡ front_len k }
{
    FRONT
}

// The bytes of a base and k cuts of q bytes each, where k and q are within their limits.
fn cubes_len(k: usize, q: usize) -> Option<usize>
    ensures { LimitedIs k q result }
{
    if MOST_CUTS < k || WIDEST_CUBE < q {
        return None;
    }
    Some((k + 1) * q)
}

// The bytes of the record of a difference with k cuts of q bytes; 0 where k or q is above its limit.
// Kept: a number and no Option, since the contract of `record_len` says 0 there.
pub fn record_len(k: usize, q: usize) -> usize
    ensures { result ≡ record_len k q }
{
    match cubes_len(k, q) {
        Some(n) => front_len(k) + n,
        None => 0,
    }
}

// Puts the front of the record of a difference with k cuts of q bytes over the front of out, if it fits there; nothing where k or q is above its limit.
pub fn put_front(out: &mut [u8], k: usize, q: usize)
    ensures { out.new ≡ put_front out.old k q }
{
    let Some(n) = cubes_len(k, q) else {
        return;
    };
    let [low, high, ..] = (front_len(k) - LENGTH + n).to_le_bytes();
    put(out, 0, &[low, high, DIFFERENCE_KIND as u8, 0, k as u8]);
}

// Puts the record of the difference with k cuts whose cubes of q bytes stand in `cubes`, the base first, over the front of out, if it fits there; nothing
// where k or q is above its limit, or where there are fewer cubes.
pub fn put_record(out: &mut [u8], cubes: &[u8], k: usize, q: usize)
    ensures { out.new ≡ put_record out.old cubes.now k q }
{
    let Some(n) = cubes_len(k, q) else {
        return;
    };
    let from = front_len(k);
    if cubes.len() < n || out.len() < from + n {
        return;
    }
    put_front(out, k, q);
    put(out, from, &cubes[..n]);
}
