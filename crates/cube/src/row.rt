// Cubes that stand one after another in lent bytes.
ghost use Rattle.std.specs.Prelude.{◌*◌, ◌≤◌, length};

// `count` cubes of `size` bytes each, from the front of the bytes on. As an iterator it gives them in their order.
#[derive(Clone, Copy, Debug, PartialEq, Eq)]
pub struct Row<'a> {
    pub bytes: &'a [u8],
    pub size: usize,
    pub count: usize,
    ghost within: { count * size ≤ length bytes.now },
}

impl<'a> Row<'a> {
    ghost use Rattle.cube.specs.Row.{RowIs};

    // The row from an offset on, where all its cubes are there.
    pub fn new(s: &'a [u8], at: usize, size: usize, count: usize) -> Option<Row<'a>>
        ensures { RowIs s.entry at size count result }
    {
        if s.len() < at {
            return None;
        }
        let bytes = &s[at..];
        let all = count.checked_mul(size)?;
        if bytes.len() < all {
            return None;
        }
        Some(Row { bytes, size, count })
    }
}

impl<'a> Iterator for Row<'a> {
    ghost use Rattle.std.specs.Iterator.{item_count, YieldsFirstRef};
    ghost use Rattle.cube.specs.Row.{slices_of};

    type Item = &'a [u8];

    ghost next_gives = { YieldsFirstRef slices_of };

    ghost remaining = { item_count slices_of };

    fn next(&mut self) -> Option<&'a [u8]> {
        let count = self.count.checked_sub(1)?;
        let size = self.size;
        let (first, bytes) = self.bytes.split_at(size);
        *self = Row { bytes, size, count };
        Some(first)
    }
}

impl<'a> DoubleEndedIterator for Row<'a> {
    ghost use Rattle.std.specs.Iterator.{YieldsLastRef};
    ghost use Rattle.cube.specs.Row.{slices_of};

    ghost next_back_gives = { YieldsLastRef slices_of };

    fn next_back(&mut self) -> Option<&'a [u8]> {
        let count = self.count.checked_sub(1)?;
        let size = self.size;
        let bytes = self.bytes;
        let (_, back) = bytes.split_at(count * size);
        let (last, _) = back.split_at(size);
        *self = Row { bytes, size, count };
        Some(last)
    }
}
