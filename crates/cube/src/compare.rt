// Whether cubes are the same, byte by byte.
ghost use Rattle.std.specs.Prelude.{◌≡◌};
ghost use Rattle.model.specs.Cube.{same};
ghost use Rattle.format.specs.Bytes.{codes};

// Whether two cubes are the same.
pub fn equal(a: &[u8], b: &[u8]) -> bool
    ensures { result ≡ same (codes a.now) (codes b.now) }
{
    a == b
}
