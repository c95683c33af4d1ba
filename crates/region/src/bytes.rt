// Numbers at a place of a slice. A byte that the slice does not have is read as 0.
ghost use Rattle.std.specs.Prelude.{◌≡◌, ◌<◌, get_or};
ghost use Rattle.format.specs.Records.{u16_at};

// The byte at a place.
pub(crate) fn byte_at(s: &[u8], at: usize) -> u8
    ensures { result ≡ get_or s.now at 0 }
{
    s.get(at).copied().unwrap_or(0)
}

// Two bytes from a place on, little-endian.
pub(crate) fn u16_at(s: &[u8], at: usize) -> u16
    requires { at < 65536 }
    ensures { result ≡ u16_at s.now at }
{
    u16::from_le_bytes([byte_at(s, at), byte_at(s, at + 1)])
}
