// Reads a region file on standard input and writes one line: whether no header can come through, or one that can.
#![tactic(auto)]

ghost use Rattle.std.specs.Prelude.{◌≡◌, ◌<◌, ◌≤◌, ℕ, length, take, IfOk, OnErr};
ghost use Rattle.std.specs.Io.KnownBytes.{Consumes, IsAtEnd};
ghost use Rattle.format.specs.Limits.{widest_header};
ghost use Rattle.format.specs.Told.{over};
ghost use Rattle.format.specs.Calls.{question};

use answer::{Answer, Refusal};
use cube::WIDEST_HEADER;
use std::io::{Read, Result};

// FORMAT 49
const MOST_INPUT: usize = 65536;

// FORMAT 140
const ALLOWANCE: u32 = 1000000;

// FORMAT 33, 34. Kept as numbers: an answer's number is that of the C interface.
const YES: u8 = 1;

const NO: u8 = 2;

const UNDECIDED: u8 = 3;

// What the input is answered: 25 where it is too long, else emptiness with the program's allowance (FORMAT 49, 140).
fn ask(input: &[u8], header: &mut [u8]) -> Answer
    requires { length header.old ≡ widest_header }
    ensures answer { result ≡ (question input.now).answer }
    ensures bytes { header.new ≡ over header.old (question input.now).bytes }
{
    if MOST_INPUT < input.len() {
        return Answer::from(Refusal::Input);
    }
    walk::region_empty(input, ALLOWANCE, header)
}

// Reads until `input` is full or there is no more to read, and gives how many bytes are read. They stand at the front, also where a read fails.
fn read_full<R: Read>(reader: &mut R, input: &mut [u8]) -> Result<usize>
    ensures bound { IfOk result (λ n. n ≤ length input.old) }
    ensures bytes { IfOk result (λ n. Consumes (R.remaining reader.old) (R.remaining reader.new) (take n input.new)) }
    ensures end { IfOk result (λ n. n < length input.old → IsAtEnd (R.remaining reader.new)) }
    ensures err { OnErr result ((n : ℕ) × Consumes (R.remaining reader.old) (R.remaining reader.new) (take n input.new)) }
{
    // Kept as a loop: `read_exact` does not say how many bytes it read, and `read_to_end` needs the heap.
    let mut done = 0;
    while done < input.len() {
        match reader.read(&mut input[done..])? {
            0 => break,
            n => done += n,
        }
    }
    Ok(done)
}

// Bytes in capital hex: a header, two digits to a byte.
fn put_hex(rt: &impl Print, bytes: &[u8]) -> Result<()> {
    let mut digits = [0u8; 2 * WIDEST_HEADER];
    let n = hex_bytes::write(bytes, &mut digits);
    rt.write_all(&digits[..n])
}

// The line: a word; then the count, or for a refusal the number and the offset; for a member, the header.
fn put_line(rt: &impl Print, answer: Answer, header: &[u8]) -> Result<()> {
    let (count, offset) = (answer.count, answer.offset);
    match answer.number {
        YES => println!(rt; "empty {count}"),
        NO => {
            print!(rt; "member {count} ")?;
            put_hex(rt, header.get(..answer.written).unwrap_or(&[]))?;
            println!(rt)
        }
        UNDECIDED => println!(rt; "undecided {count}"),
        refusal => println!(rt; "refused {refusal} {offset}"),
    }
}

fn main(rt: HostRuntime) -> Result<()> {
    let mut input = [0u8; MOST_INPUT + 1];
    let n = read_full(&mut rt.stdin(), &mut input)?;
    let mut header = [0u8; WIDEST_HEADER];
    let answer = ask(&input[..n], &mut header);
    put_line(&rt, answer, &header)
}
