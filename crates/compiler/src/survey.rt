// The lore of a book, which the compiler looks things up in.
// Here, in order: the types; where the types end; the lore of a book that is accepted.
// Not here: the form of the lore (lib), what it says (specs/Rows, LoreIs), reading (crate book).
ghost use Rattle.std.specs.Prelude.{◌≡◌, ◌≤◌};
ghost use Rattle.compiler.specs.Tables.{front_at, SurveyIs};
ghost use Rattle.compiler.specs.Here.{TypesKnown, TypesNoted};

use crate::Lore;

// Each type's first constructor and how many it has.
fn note_types(book: &[u8], n: usize, lore: &mut Lore)
    requires { TypesKnown book.now n }
    ensures { TypesNoted book.now lore.old lore.new n }
{
    for t in 0..n {
        let info = book::type_at(book, book::TypeNo(t as u8));
        lore.firsts[t] = info.first as u8;
        lore.counts[t] = info.count as u8;
    }
}

// The place after n types.
pub fn front_at(lore: &Lore, n: usize) -> usize
    requires { n ≤ 64 }
    ensures { result ≡ front_at lore.now n }
{
    let mut at: usize = 0;
    for t in 0..n {
        at += 2 * lore.counts[t] as usize + 2;
    }
    at
}

// The lore of a book, if it is accepted.
pub fn survey(book: &[u8]) -> Result<Lore, book::Fault>
    ensures { SurveyIs book.now result }
{
    let mut cons = [0u8; 256];
    let mut funcs = [0u8; 256];
    let sizes = book::read_book(book, &mut cons, &mut funcs)?;
    let mut lore = Lore {
        sizes,
        cons,
        funcs,
        firsts: [0; 64],
        counts: [0; 64],
    };
    note_types(book, sizes.types, &mut lore);
    Ok(lore)
}
