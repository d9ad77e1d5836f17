// The TYPEs at a book's start.
// Here, in order: a type by its number; where a constructor belongs; CONS records; all TYPEs, which gathers the constructors' arities.
// Not here: the functions (shelf).
ghost use Rattle.std.specs.Prelude.{◌≡◌, ◌<◌, ◌≤◌, length};
ghost use Rattle.book.specs.Syntax.{con_arities};
ghost use Rattle.book.specs.Steps.{types_of, Front, TypeIs, ConsIs, TypesIs};
ghost use Rattle.book.specs.Facts.{HomeIs};

use crate::record::rec_at;
use crate::{ConNo, Fault, Home, Kind, Sort, TypeInfo, TypeNo, Types};

// A type, found by walking over those before it.
pub fn type_at(s: &[u8], t: TypeNo) -> TypeInfo
    requires { Front s.now (length (types_of s.now)) × (t.0 < length (types_of s.now)) }
    ensures { TypeIs s.now t.0 result }
{
    let mut at = 0;
    let mut first = 0;
    for _ in 0..t.0 {
        let n = s[at + 1] as usize;
        at += 2 * n + 2;
        first += n;
    }
    let count = s[at + 1] as usize;
    TypeInfo { at, first, count }
}

// Where a constructor belongs, found by walking over the types before it.
pub fn con_home(s: &[u8], c: ConNo) -> Home
    requires { Front s.now (length (types_of s.now)) × (c.0 < length (con_arities (types_of s.now))) }
    ensures { HomeIs s.now c.0 result }
{
    let mut at = 0;
    let mut ty = 0;
    let mut arm = c.0 as usize;
    let mut n = s[1] as usize;
    while n <= arm {
        arm -= n;
        at += 2 * n + 2;
        ty += 1;
        n = s[at + 1] as usize;
    }
    Home { ty, arm }
}

// n CONS records, `before` standing before them; their arities are put into the table.
pub fn read_cons(
    s: &[u8],
    table: &mut [u8],
    before: usize,
    n: usize,
    from: usize,
) -> Result<usize, Fault>
    requires { (length table.old ≡ 256) × (before ≤ 256) }
    ensures { ConsIs s.now before n from table.old table.new result }
{
    let mut at = from;
    for i in 0..n {
        let r = rec_at(s, at)?;
        if r.kind != Kind::Cons {
            return Err(Fault::new(Sort::Unexpected, at));
        }
        if 256 <= before + i {
            return Err(Fault::new(Sort::Range, at));
        }
        if 8 < r.a {
            return Err(Fault::new(Sort::Range, at));
        }
        table[before + i] = r.a;
        at = r.end;
    }
    Ok(at)
}

// The TYPEs at a book's start; the constructors' arities are put into the table.
pub fn read_types(s: &[u8], table: &mut [u8]) -> Result<Types, Fault>
    requires { length table.old ≡ 256 }
    ensures { TypesIs s.now table.new result }
{
    let mut at = 0;
    let mut types: usize = 0;
    let mut cons: usize = 0;
    loop {
        let Ok(r) = rec_at(s, at) else {
            return Ok(Types {
                types,
                cons,
                end: at,
            });
        };
        if r.kind != Kind::Type {
            return Ok(Types {
                types,
                cons,
                end: at,
            });
        }
        if 64 <= types {
            return Err(Fault::new(Sort::Range, at));
        }
        if r.a == 0 {
            return Err(Fault::new(Sort::Range, at));
        }
        if 32 < r.a {
            return Err(Fault::new(Sort::Range, at));
        }
        let n = r.a as usize;
        at = read_cons(s, table, cons, n, r.end)?;
        types += 1;
        cons += n;
    }
}
