// What the programs read.
// Here, in order: a buffer filled from a reader; bytes that are passed over. Not here: what the bytes mean (crate cases, the programs).
#![tactic(auto)]

ghost use Rattle.std.specs.Prelude.{ℕ, ◌≤◌, ◌<◌, ◌≡◌, true, false, length, take, IfOk, IfErr};
ghost use Rattle.std.specs.Io.KnownBytes.{Consumes, IsAtEnd};
ghost use Rattle.input.specs.Reading.{Lost, Gone, Short};

use std::io;
use std::io::Read;

// Reads until the buffer is full or the input ends, and answers how many bytes it put at the start of it. An error is the reader's: what was read before it stands at the start
// of the buffer, and no more is gone from the input.
pub fn read_full<R: Read>(input: &mut R, buf: &mut [u8]) -> io::Result<usize>
    ensures in_bounds { IfOk result (λ n. n ≤ length buf.new) }
    ensures bytes { IfOk result (λ n. Consumes (R.remaining input.old) (R.remaining input.new) (take n buf.new)) }
    ensures end { IfOk result (λ n. n < length buf.new → IsAtEnd (R.remaining input.new)) }
    ensures err { IfErr result (λ _. (n : ℕ) × (n ≤ length buf.new) × Consumes (R.remaining input.old) (R.remaining input.new) (take n buf.new)) }
    ensures lost { Lost (R.remaining input.old) (R.remaining input.new) }
{
    let mut done = 0;
    while done < buf.len() {
        let n = input.read(&mut buf[done..])?;
        if n == 0 {
            return Ok(done);
        }
        done += n;
    }
    Ok(done)
}

// Passes over n bytes; whether there are as many. An error is the reader's.
pub fn skip<R: Read>(input: &mut R, n: usize) -> io::Result<bool>
    ensures whole { IfOk result (λ whole. whole ≡ true → Gone n (R.remaining input.old) (R.remaining input.new)) }
    ensures end { IfOk result (λ whole. whole ≡ false → Short n (R.remaining input.old) (R.remaining input.new)) }
    ensures lost { Lost (R.remaining input.old) (R.remaining input.new) }
{
    let mut chunk = [0u8; 4096];
    let mut left = n;
    while left > 0 {
        let m = left.min(chunk.len());
        let got = read_full(input, &mut chunk[..m])?;
        if got == 0 {
            return Ok(false);
        }
        left -= got;
    }
    Ok(true)
}
