// The record at a place, and the first pass over all records of a book or a question.
// Here, in order: the record at a place; a book's first pass, which gathers the functions' arities; a question's; a function's tree.
// Not here: which record is expected where (front, term, tree).
ghost use Rattle.std.specs.Prelude.{◌≡◌, length};
ghost use Rattle.book.specs.Record.{rec_at, scan, any_fits};
ghost use Rattle.book.specs.Kinds.{by_number};
ghost use Rattle.book.specs.Steps.{step, PassIs};
ghost use Rattle.book.specs.Facts.{TreeStands};

use crate::{Fault, FunNo, Kind, Rec, Sort};

// The record at a place, or what is wrong there.
pub fn rec_at(s: &[u8], at: usize) -> Result<Rec, Fault>
    ensures { by_number result ≡ rec_at s.now at }
{
    if s.len() <= at {
        return Err(Fault::new(Sort::End, at));
    }
    let left = s.len() - at;
    let Some(kind) = Kind::of(s[at]) else {
        return Err(Fault::new(Sort::Unknown, at));
    };
    match kind {
        Kind::None => Ok(Rec {
            kind,
            a: 0,
            b: 0,
            end: at + 1,
        }),
        Kind::Split if 3 <= left => Ok(Rec {
            kind,
            a: s[at + 1],
            b: s[at + 2],
            end: at + 3,
        }),
        Kind::Split => Err(Fault::new(Sort::Cut, at)),
        _ if 2 <= left => Ok(Rec {
            kind,
            a: s[at + 1],
            b: 0,
            end: at + 2,
        }),
        _ => Err(Fault::new(Sort::Cut, at)),
    }
}

// The first pass over a book, which counts its FUNCs; their arities are put into the table.
pub fn first_pass(s: &[u8], table: &mut [u8]) -> Result<usize, Fault>
    requires { length table.old ≡ 256 }
    ensures { PassIs s.now table.new result }
{
    let mut at = 0;
    let mut funcs: usize = 0;
    while at < s.len() {
        let r = rec_at(s, at)?;
        if r.kind == Kind::Func {
            if 8 < r.a {
                return Err(Fault::new(Sort::Range, at));
            }
            if 256 <= funcs {
                return Err(Fault::new(Sort::Range, at));
            }
            table[funcs] = r.a;
            funcs += 1;
        }
        at = r.end;
    }
    Ok(funcs)
}

// The first pass over a question, up to its end.
pub fn whole(s: &[u8]) -> Result<usize, Fault>
    ensures { result ≡ step (scan s.now any_fits (length s.now) 0 0) }
{
    let mut at = 0;
    while at < s.len() {
        at = rec_at(s, at)?.end;
    }
    Ok(at)
}

// The place of a function's tree: after its FUNC record.
pub fn fun_tree(s: &[u8], f: FunNo) -> usize
    ensures { TreeStands s.now f.0 result }
{
    let mut at = 0;
    let mut left = f.0;
    while at < s.len() {
        let Ok(r) = rec_at(s, at) else {
            return at;
        };
        if r.kind == Kind::Func {
            if left == 0 {
                return r.end;
            }
            left -= 1;
        }
        at = r.end;
    }
    at
}
