// Bytes laid into a buffer.
ghost use Rattle.std.specs.Prelude.{◌≡◌};
ghost use Rattle.cube.specs.Lay.{put};

// Lays src into out from an offset on, if it fits there whole; else out stays as it was.
pub fn put(out: &mut [u8], o: usize, src: &[u8])
    ensures { out.new ≡ put out.old o src.now }
{
    if o <= out.len() && src.len() <= out.len() - o {
        out[o..o + src.len()].copy_from_slice(src);
    }
}
