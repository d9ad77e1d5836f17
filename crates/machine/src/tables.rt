// The program's tables in the rest of the memory: starts, arities, arms.
ghost use Rattle.std.specs.Prelude.{◌≡◌, ℕ, ◌+◌, ◌*◌, ◌<◌, ◌≤◌, length, get_or};
ghost use Rattle.store.specs.Rows.{symbol_of};
ghost use Rattle.store.specs.Regions.{rest_of};
ghost use Rattle.engine.specs.Machine.{arity_of, arm_of};
ghost use Rattle.machine.specs.Tables.{Space};
ghost use Rattle.machine.specs.Contract.{ByTables};
ghost use Rattle.machine.specs.View.{arm_is};

use book::{ConNo, FunNo};
use store::{Head, View};

// A function's start in the code.
pub fn start_of(store: View, base: usize, f: FunNo) -> usize
    requires { Space store.limit base store.bytes.now }
    ensures { ByTables base (rest_of store.entry.limit store.entry.bytes.now) (λ p. result ≡ get_or p.starts f.0 0) }
{
    let at = base + 2 * (f.0 as usize);
    let low = store.rest(at) as usize;
    let high = store.rest(at + 1) as usize;
    low + 65536 * high
}

// A symbol's arity.
pub fn arity(store: View, base: usize, head: Head) -> u16
    requires { Space store.limit base store.bytes.now }
    ensures { ByTables base (rest_of store.entry.limit store.entry.bytes.now) (λ p. result ≡ arity_of p (symbol_of head)) }
{
    match head {
        Head::Makes(c) => store.rest(base + 768 + (c.0 as usize)),
        Head::Calls(f) => store.rest(base + 512 + (f.0 as usize)),
    }
}

// The arm of a BRANCH of type t for a constructor, if it is of that type.
pub fn arm_of(store: View, base: usize, t: u8, c: ConNo) -> Option<u16>
    requires { Space store.limit base store.bytes.now }
    ensures { ByTables base (rest_of store.entry.limit store.entry.bytes.now) (λ p. arm_is result ≡ arm_of p t c.0) }
{
    let at = base + 1024 + (c.0 as usize);
    let home = store.rest(at);
    if home != t as u16 {
        return None;
    }
    Some(store.rest(base + 1280 + (c.0 as usize)))
}
