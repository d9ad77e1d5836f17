// A whole book: the first pass, the TYPEs, the FUNCs, each tree read in the part of the book that starts there.
// Here, in order: the FUNCs; the book.
// Not here: what the checks answer (judge).
ghost use Rattle.std.specs.Prelude.{◌≡◌, length};
ghost use Rattle.book.specs.Reading.{read_funcs};
ghost use Rattle.book.specs.Steps.{step, types_of, Lore, BookIs};

use crate::front::read_types;
use crate::record::{first_pass, rec_at};
use crate::tree::{arguments, read_tree};
use crate::{Fault, Kind, Sizes, Sort};

// The FUNCs up to the end, each with its tree, which is read in the part that starts there: its places are counted from there.
pub fn read_funcs(
    s: &[u8],
    types: usize,
    cons: &[u8],
    funcs: &[u8],
    from: usize,
) -> Result<usize, Fault>
    requires { Lore s.now cons.now types }
    ensures { result ≡ step (read_funcs (length s.now) s.now (types_of s.now) funcs.now from) }
{
    let mut at = from;
    while at < s.len() {
        let r = rec_at(s, at)?;
        if r.kind != Kind::Func {
            return Err(Fault::new(Sort::Unexpected, at));
        }
        if 8 < r.a {
            return Err(Fault::new(Sort::Range, at));
        }
        let by = r.end;
        let slots = arguments(r.a as usize);
        match read_tree(&s[by..], s, types, cons, funcs, &slots, 0) {
            Ok(e) => at = by + e,
            Err(f) => return Err(Fault { at: by + f.at, ..f }),
        }
    }
    Ok(at)
}

// A book, with the arities of its constructors and functions put into the two tables.
pub fn read_book(s: &[u8], cons: &mut [u8], funcs: &mut [u8]) -> Result<Sizes, Fault>
    requires { (length cons.old ≡ 256) × (length funcs.old ≡ 256) }
    ensures { BookIs s.now cons.new funcs.new result }
{
    if 32768 < s.len() {
        return Err(Fault::new(Sort::End, 32768));
    }
    let n = first_pass(s, funcs)?;
    let t = read_types(s, cons)?;
    read_funcs(s, t.types, &cons[..t.cons], &funcs[..n], t.end)?;
    Ok(Sizes {
        types: t.types,
        cons: t.cons,
        funcs: n,
    })
}
