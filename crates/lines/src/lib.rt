// How an outcome of the run is printed, for the programs.
// Here, in order: an answer's number and its place; a line's nine numbers; bytes in lower-case hex.
// Not here: the run (crate run), what is read (the programs).
#![tactic(auto)]

ghost use Rattle.std.specs.Prelude.{◌≡◌, ◌≤◌, ◌*◌, ◌%◌, length, take, false, OnOk};
ghost use Rattle.std.specs.Fmt.{digit_glyph};
ghost use Rattle.std.specs.Io.KnownBytes.{Appends};
ghost use Rattle.engine.specs.Run.{number_of, place_of};
ghost use Rattle.run.specs.Given.{answer_is};
ghost use Rattle.lines.specs.Written.{hex, told_line};

use run::{Answer, Outcome};
use std::io;
use std::io::Write;

// The paper's number of an answer.
#[tactic(auto, unfolding(engine::specs::Run::number_of, run::specs::Given::answer_is))]
pub fn number(a: Answer) -> u64
    ensures { result ≡ number_of (answer_is a) }
{
    match a {
        Answer::Emptied => 0,
        Answer::Spent => 1,
        Answer::NoNodes => 2,
        Answer::NoPlaces => 3,
        Answer::NoRoom => 4,
        Answer::BadLimits => 10,
        Answer::BadBook(_) => 11,
        Answer::BadQuestion(_) => 12,
        Answer::LongCode => 13,
    }
}

// The place that an answer gives: the fault's, and 0 where there is none.
#[tactic(auto, unfolding(engine::specs::Run::place_of, run::specs::Given::answer_is))]
pub fn place(a: Answer) -> usize
    ensures { result ≡ place_of (answer_is a) }
{
    match a {
        Answer::BadBook(f) | Answer::BadQuestion(f) => f.at,
        _ => 0,
    }
}

// The answer, the place and the seven counts, one space between.
pub fn print_told<W: Write>(out: &mut W, o: Outcome) -> io::Result<()>
    ensures { OnOk result (Appends (W.contents out.old) (W.contents out.new) (told_line o)) }
{
    write!(
        out,
        "{} {} {} {} {} {} {} {} {}",
        number(o.answer),
        place(o.answer),
        o.turns,
        o.nodes,
        o.begun,
        o.split,
        o.values,
        o.failed,
        o.misfits,
    )
}

// The hex digit of a number's last four bits.
fn digit(x: u8) -> u8
    ensures { result ≡ digit_glyph false (x % 16) }
{
    let d = x % 16;
    if d < 10 { b'0' + d } else { b'a' + (d - 10) }
}

// Bytes in hex, at the start of a buffer.
fn spell(bytes: &[u8], out: &mut [u8])
    requires { 2 * length bytes.now ≤ length out.old }
    ensures { take (2 * length bytes.now) out.new ≡ hex bytes.now }
{
    for (i, x) in bytes.iter().enumerate() {
        out[2 * i] = digit(x / 16);
        out[2 * i + 1] = digit(x % 16);
    }
}

// At most 2,048 bytes in hex, by one write.
fn print_part<W: Write>(out: &mut W, part: &[u8]) -> io::Result<()>
    requires { length part.now ≤ 2048 }
    ensures { OnOk result (Appends (W.contents out.old) (W.contents out.new) (hex part.now)) }
{
    let mut digits = [0u8; 4096];
    spell(part, &mut digits);
    out.write_all(&digits[..2 * part.len()])
}

// Bytes in lower-case hex, two digits each, a part of them at a time.
pub fn print_hex<W: Write>(out: &mut W, bytes: &[u8]) -> io::Result<()>
    ensures { OnOk result (Appends (W.contents out.old) (W.contents out.new) (hex bytes.now)) }
{
    for part in bytes.chunks(2048) {
        print_part(out, part)?;
    }
    Ok(())
}
