// Bytes in capital hex.
#![tactic(auto)]

ghost use Rattle.std.specs.Prelude.{◌<◌, ◌≡◌};
ghost use Rattle.hex_bytes.specs.Digits.{hex_digit, InHex};

// The digit of a number below 16.
fn digit(n: u8) -> u8
    requires { n < 16 }
    ensures { result ≡ hex_digit n }
{
    if n < 10 { b'0' + n } else { b'A' + (n - 10) }
}

// Writes the bytes of s in digits, two a byte, over the front of out, as many as there is room for, and gives how many digits they are.
pub fn write(s: &[u8], out: &mut [u8]) -> usize
    ensures { InHex s.now out.old result out.new }
{
    let n = s.len().min(out.len() / 2);
    for i in 0..n {
        let at = 2 * i;
        out[at] = digit(s[i] / 16);
        out[at + 1] = digit(s[i] % 16);
    }
    2 * n
}
