// The words of a question, of which the first is a call's name and each other an argument.
ghost use Rattle.std.specs.Prelude.{◌≡◌, ◌+◌, ◌*◌, ◌<◌, ◌≤◌, ℕ, length, slice_index, IfSome};
ghost use Rattle.std.specs.Char.{digit_value};
ghost use Rattle.desk.specs.Operand.{spelled};
ghost use Rattle.std.specs.Str.Parse.{IsNumeral, digits_value};

// The largest buffer that is lent.
pub(crate) const MOST_ROOM: usize = 1048576;

// What is left of a line; none behind its last word.
#[derive(Drop)]
pub(crate) struct Words<'a> {
    rest: Option<&'a mut [u8]>,
}

impl<'a> Words<'a> {
    pub(crate) fn new(line: &'a mut [u8]) -> Words<'a> {
        Words { rest: Some(line) }
    }

    // The next word, up to a single space or the line's end.
    pub(crate) fn word(&mut self) -> Option<&'a mut [u8]> {
        let mut parts = self.rest.take()?.splitn_mut(2, |c| *c == b' ');
        let word = parts.next();
        self.rest = parts.next();
        word
    }

    // A number, spelled by decimal digits.
    pub(crate) fn number(&mut self) -> Option<usize> {
        decimal(self.word()?)
    }

    pub(crate) fn allowance(&mut self) -> Option<u32> {
        u32::try_from(self.number()?).ok()
    }

    // How large a buffer is lent.
    pub(crate) fn room(&mut self) -> Option<usize>
        ensures { IfSome result (λ n. n ≤ MOST_ROOM) }
    {
        let size = self.number()?;
        (size <= MOST_ROOM).then_some(size)
    }

    // Bytes in hex, `-` for none. They are left in the word, where their digits stood.
    pub(crate) fn operand(&mut self) -> Option<&'a [u8]> {
        let word = self.word()?;
        if &*word == b"-".as_slice() {
            return Some(&[]);
        }
        let size = bytes_of_hex(word)?;
        Some(&word[..size])
    }

    // Whether no word is left.
    pub(crate) fn is_empty(&self) -> bool {
        self.rest.is_none()
    }
}

// The number that is spelled by decimal digits. A sign, which `parse` takes, is none.
fn decimal(word: &[u8]) -> Option<usize>
    ensures { IfSome result (λ n. (n ≡ digits_value 10 word.now) × IsNumeral 10 word.now) }
{
    if word.first() == Some(&b'+') {
        return None;
    }
    str::from_utf8(word).ok()?.parse().ok()
}

// The byte that two digits of either case spell.
fn byte(high: u8, low: u8) -> Option<u8>
    ensures { IfSome result (λ b. b ≡ 16 * digit_value high + digit_value low) }
{
    let high = char::from(high).to_digit(16)?;
    let low = char::from(low).to_digit(16)?;
    Some((16 * high + low) as u8)
}

// Puts the bytes that the word spells in the place of its first digits, and gives how many they are. An empty word spells nothing.
// Kept as a loop over places: a byte goes where digits stood, so no iterator can lend the digits meanwhile.
fn bytes_of_hex(word: &mut [u8]) -> Option<usize>
    ensures count { IfSome result (λ n. 2 * n ≡ length word.old) }
    ensures bytes { IfSome result (λ n. (k : ℕ) → k < n → slice_index word.new k ≡ spelled word.old k) }
{
    if word.is_empty() || word.len() % 2 == 1 {
        return None;
    }
    let size = word.len() / 2;
    for i in 0..size {
        word[i] = byte(word[2 * i], word[2 * i + 1])?;
    }
    Some(size)
}
