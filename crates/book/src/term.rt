// Terms and RIGHTs, read by a count of terms still due, without recursion.
// Here, in order: arities looked up; one record of a term; a term; a RIGHT; the RIGHTs of a RULE.
// Not here: trees (tree), where the arities come from (record, front).
ghost use Rattle.std.specs.Prelude.{◌≡◌, Some, ltb, slice_get};
ghost use Rattle.book.specs.Reading.{read_head, read_terms, read_right, read_rights};
ghost use Rattle.book.specs.Steps.{step, args_of, none_if_below, slots_of, names};

use crate::record::rec_at;
use crate::{Args, ConNo, Fault, FunNo, Kind, Sort};

// The arity of a constructor, from the arities of all of them.
pub fn con_arity(cons: &[u8], c: ConNo) -> Option<u8>
    ensures { result ≡ slice_get cons.now c.0 }
{
    cons.get(c.0 as usize).copied()
}

// The arity of a function, from the arities of all of them.
pub fn fun_arity(funcs: &[u8], f: FunNo) -> Option<u8>
    ensures { result ≡ slice_get funcs.now f.0 }
{
    funcs.get(f.0 as usize).copied()
}

// No terms follow the record of a number, if that is below n.
fn alone(a: u8, n: usize) -> Option<u8>
    ensures { result ≡ none_if_below a n }
{
    if (a as usize) < n { Some(0) } else { None }
}

// One record of a term, of which `room` more may be read. A SLOT is expected only under a pattern, which has so many.
pub fn head_at(
    s: &[u8],
    cons: &[u8],
    funcs: &[u8],
    pattern: Option<usize>,
    vars: usize,
    room: usize,
    at: usize,
) -> Result<Args, Fault>
    ensures { result ≡ args_of (read_head s.now (names cons.now funcs.now pattern vars) (ltb 0 room) at) }
{
    let r = rec_at(s, at)?;
    let known = match (r.kind, pattern) {
        (Kind::Con, _) => con_arity(cons, ConNo(r.a)),
        (Kind::Call, _) => fun_arity(funcs, FunNo(r.a)),
        (Kind::Slot, Some(slots)) => alone(r.a, slots),
        (Kind::Fresh, _) => alone(r.a, vars),
        _ => return Err(Fault::new(Sort::Unexpected, at)),
    };
    match known {
        Some(count) if 0 < room => Ok(Args { count, end: r.end }),
        _ => Err(Fault::new(Sort::Range, at)),
    }
}

// A term, by the count of terms still due.
pub fn read_term(
    s: &[u8],
    cons: &[u8],
    funcs: &[u8],
    pattern: Option<usize>,
    vars: usize,
    from: usize,
) -> Result<usize, Fault>
    ensures { result ≡ step (read_terms s.now (names cons.now funcs.now pattern vars) 255 1 from) }
{
    let mut at = from;
    let mut due: usize = 1;
    let mut room: usize = 255;
    while 0 < due {
        let h = head_at(s, cons, funcs, pattern, vars, room, at)?;
        due = due - 1 + h.count as usize;
        room -= 1;
        at = h.end;
    }
    Ok(at)
}

// A RIGHT and its term.
pub fn read_right(
    s: &[u8],
    cons: &[u8],
    funcs: &[u8],
    pattern: Option<usize>,
    at: usize,
) -> Result<usize, Fault>
    ensures { result ≡ step (read_right s.now cons.now funcs.now (slots_of pattern) at) }
{
    let r = rec_at(s, at)?;
    if r.kind != Kind::Right {
        return Err(Fault::new(Sort::Unexpected, at));
    }
    if 8 < r.a {
        return Err(Fault::new(Sort::Range, at));
    }
    read_term(s, cons, funcs, pattern, r.a as usize, r.end)
}

// As many RIGHTs as a RULE says.
pub fn read_rights(
    s: &[u8],
    cons: &[u8],
    funcs: &[u8],
    slots: usize,
    n: usize,
    from: usize,
) -> Result<usize, Fault>
    ensures { result ≡ step (read_rights (read_right s.now cons.now funcs.now (slots_of (Some slots))) n from) }
{
    let mut at = from;
    for _ in 0..n {
        at = read_right(s, cons, funcs, Some(slots), at)?;
    }
    Ok(at)
}
