// The lines that the program writes, held in a lent buffer until it is full.
ghost use Rattle.std.specs.Prelude.{◌≡◌, ◌+◌, ◌<◌, ◌≤◌, ◌++◌, None, length, take, IsOk, OnOk, OnErr};
ghost use Rattle.std.specs.Io.{WritesAtMost};
ghost use Rattle.std.specs.Io.KnownBytes.{Appends, Keeps, WriteAppends};
ghost use Rattle.hex_bytes.specs.Digits.{InHex};

use std::io::{Result, Write};

#[derive(Drop)]
pub(crate) struct Text<'a, P> {
    rt: &'a P,
    bytes: &'a mut [u8],
    held: usize,
    ghost within: { held ≤ length bytes.now },
}

impl<'a, P: Print> Text<'a, P> {
    pub(crate) fn new(rt: &'a P, bytes: &'a mut [u8]) -> Text<'a, P>
        ensures { result.held ≡ 0 }
    {
        Text { rt, bytes, held: 0 }
    }

    // What is held.
    fn as_slice(&self) -> &[u8]
        ensures { result.now ≡ take self.now.held self.now.bytes.now }
    {
        &self.bytes[..self.held]
    }

    // Bytes in hex, `-` for none. What is held is written out first, so that the digits have the whole buffer; no more than fit are held.
    pub(crate) fn put_hex(&mut self, s: &[u8]) -> Result<()>
        ensures digits { 0 < length s.now → OnOk result (InHex s.now self.old.bytes.now self.new.held self.new.bytes.now) }
        ensures err { OnErr result (self.new.bytes.now ≡ self.old.bytes.now) }
    {
        if s.is_empty() {
            return self.write_all(b"-");
        }
        self.flush()?;
        self.held = hex_bytes::write(s, self.bytes);
        Ok(())
    }
}

impl<P: Print> Write for Text<'_, P> {
    fn write(&mut self, s: &[u8]) -> Result<usize>
        ensures bound { WritesAtMost result s.now }
        ensures bytes { WriteAppends None None result s.now }
        ensures err { OnErr result (self.new.bytes.now ≡ self.old.bytes.now) }
    {
        self.write_all(s)?;
        Ok(s.len())
    }

    // Writes out what is held, after which nothing is.
    fn flush(&mut self) -> Result<()>
        ensures bytes { Keeps None None }
        ensures ok { OnOk result (self.new.held ≡ 0) }
        ensures kept { self.new.bytes.now ≡ self.old.bytes.now }
    {
        self.rt.write_all(self.as_slice())?;
        self.held = 0;
        Ok(())
    }

    // Holds the bytes of `s` too. No write is made where there is room for all of them, and one that fails leaves the buffer as it was.
    fn write_all(&mut self, s: &[u8]) -> Result<()>
        ensures bytes { OnOk result (Appends None None s.now) }
        ensures room { self.old.held + length s.now ≤ length self.old.bytes.now → IsOk result
            × (take self.new.held self.new.bytes.now ≡ take self.old.held self.old.bytes.now ++ s.now) }
        ensures held { self.old.held + length s.now ≤ length self.old.bytes.now → self.new.held ≡ self.old.held + length s.now }
        ensures err { OnErr result (self.new.bytes.now ≡ self.old.bytes.now) }
    {
        if self.bytes.len() - self.held < s.len() {
            self.flush()?;
        }
        if self.bytes.len() - self.held < s.len() {
            return self.rt.write_all(s);
        }
        let end = self.held + s.len();
        self.bytes[self.held..end].copy_from_slice(s);
        self.held = end;
        Ok(())
    }
}
