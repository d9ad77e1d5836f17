// The first pass over a question, a part of it at a time.
// Here, in order: a record's first byte; the next byte; a part.
// Not here: where the parts come from (stream).
ghost use Rattle.std.specs.Prelude.{◌≡◌, ◌+◌, ◌<◌, length};
ghost use Rattle.book.specs.Record.{body_of};
ghost use Rattle.cases.specs.Parts.{begun, byte, passed, reach};

use crate::Passed;

// A record at a place, by its kind.
#[tactic(auto, unfolding(crate::specs::Parts::begun, book::specs::Record::body_of))]
fn begin(at: usize, kind: u8) -> Passed
    requires { at + 1 < 18446744073709551616 }
    ensures { result ≡ begun at (body_of kind) }
{
    let end = at + 1;
    match kind {
        11 => Passed::Whole(end),
        4 => Passed::Begun { at, due: 1, end },
        1..=10 => Passed::Begun { at, due: 0, end },
        _ => Passed::Lost(at),
    }
}

// The next byte.
#[tactic(auto, unfolding(crate::specs::Parts::byte, crate::specs::Parts::due, crate::specs::Parts::reach))]
fn pass_byte(p: Passed, x: u8) -> Passed
    requires { reach p + 1 < 18446744073709551616 }
    ensures { result ≡ byte p x }
{
    match p {
        Passed::Whole(end) => begin(end, x),
        Passed::Begun { at, due, end } => {
            if due == 0 {
                return Passed::Whole(end + 1);
            }
            Passed::Begun {
                at,
                due: due - 1,
                end: end + 1,
            }
        }
        Passed::Lost(_) => p,
    }
}

// A part, behind those that were passed.
pub fn pass_part(p: Passed, part: &[u8]) -> Passed
    requires { reach p + length part.now < 18446744073709551616 }
    ensures { result ≡ passed p part.now }
{
    let mut now = p;
    for x in part {
        now = pass_byte(now, *x);
    }
    now
}
