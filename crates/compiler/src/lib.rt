// The compiler: from an accepted book to document 01's code records, and the machine's tables.
// Here: the forms that the modules share. The modules, lowest first: code, kinds, position, term, rule, arm, tree, length, survey, tables, whole.
// Not here: reading (crate book), the definition of the code (engine's Compile).
#![tactic(auto)]

ghost use Rattle.std.specs.Prelude.{◌≡◌};

mod arm;
mod code;
mod kinds;
mod length;
mod position;
mod rule;
mod survey;
mod tables;
mod term;
mod tree;
mod whole;

pub use length::code_length;
pub use whole::compile_into;

// The place in the book after what was compiled, and the place in the code after what was written.
#[derive(Clone, Copy)]
pub struct Ends {
    pub at: usize,
    pub out: usize,
}

// The lore of a book, which the compiler looks things up in: its sizes, the arities of its constructors and of its functions, each type's first constructor and how many it has.
#[derive(Drop)]
pub struct Lore {
    pub sizes: book::Sizes,
    pub cons: [u8; 256],
    pub funcs: [u8; 256],
    pub firsts: [u8; 64],
    pub counts: [u8; 64],
}

// Why a book is not compiled: its code, so long, is longer than the room; or the book is at fault.
#[derive(Clone, Copy)]
pub enum Refused {
    TooLong(usize),
    Fault(book::Fault),
}

impl From<book::Fault> for Refused {
    ghost use Rattle.compiler.specs.declared.Refused.TheVariants as refused;

    ghost from_gives = { λ f r. r ≡ refused.Fault f };

    fn from(f: book::Fault) -> Refused {
        Refused::Fault(f)
    }
}
