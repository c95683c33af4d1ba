// The buffer that is lent for writing: it is filled with a pattern, so that a byte that changed beyond the bytes written shows.
fn pattern(i: usize) -> u8 {
    (i % 256) as u8 ^ 165
}

// Fills the room with the pattern.
pub(crate) fn fill(room: &mut [u8]) {
    for (i, byte) in room.iter_mut().enumerate() {
        *byte = pattern(i);
    }
}

// Whether a byte from `written` on is not the pattern's.
pub(crate) fn touched(room: &[u8], written: usize) -> bool {
    let rest = room.get(written..).unwrap_or(&[]);
    let changed = rest
        .iter()
        .zip(written..room.len())
        .fold(0, |changed, (byte, i)| changed | (*byte ^ pattern(i)));
    changed != 0
}
