// Before a question is asked: the book's code in the code memory, and its tables in the work memory.
// Here, in order: the tables ended at the book's counts; the book compiled.
ghost use Rattle.std.specs.Prelude.{◌+◌};
ghost use Rattle.store.specs.Whole.{SameLoan};
ghost use Rattle.pool.specs.Ring.{RestRoom};
ghost use Rattle.run.specs.Given.{limits_of};
ghost use Rattle.run.specs.Setting.{EndedAt, Lends, SettingIs};

use crate::Limits;
use crate::tables::end_tables;
use compiler::Refused;
use store::Store;

// No function and no constructor from the book's counts on.
fn end_at_counts(book: &[u8], store: &mut Store, base: usize)
    requires { RestRoom store.old.limit (base + 1536) store.old.bytes.now }
    ensures loan { SameLoan store.old store.new }
    ensures ended { EndedAt book.now store.old.limit base store.old.bytes.now store.new.bytes.now }
{
    let mut cons = [0u8; 256];
    let mut funcs = [0u8; 256];
    if let Ok(sizes) = book::read_book(book, &mut cons, &mut funcs) {
        end_tables(store, base, sizes.funcs, sizes.cons);
    }
}

// The book is compiled, if its code has room; else nothing is written.
pub fn set_up(book: &[u8], work: &mut [u8], code: &mut [u8], l: Limits) -> Result<usize, Refused>
    requires { Lends (limits_of l) work.old code.old }
    ensures { SettingIs book.now (limits_of l) work.old work.new code.old code.new result }
{
    let base = 20 * l.pool;
    let at = 2 * (16 * l.nodes + base);
    let n = compiler::compile_into(book, &mut work[at..], code, l.code)?;
    let mut store = Store {
        bytes: work,
        limit: l.nodes,
    };
    end_at_counts(book, &mut store, base);
    Ok(n)
}
