// The node store on lent bytes: nodes, and a few words for each node. specs/Regions has the map.
// Here, in order: what stands at a node; what a node, a frame and a computation's handles are told by; a cell's words.
// Not here: the store's methods, which read and write it (whole); what lies in the rest (pool, compiler, machine).
#![tactic(auto)]

ghost use Rattle.std.specs.Prelude.{◌≡◌, ◌+◌, ◌*◌, ◌%◌, ◌≤◌, length};
ghost use Rattle.mem.specs.Words.{words};
ghost use Rattle.store.specs.Rows.{count_of, symbol_of, HeadIs, filled};

use book::{ConNo, FunNo};

mod whole;

pub use whole::{Store, View};

// A node's number.
#[derive(Clone, Copy, PartialEq, Eq)]
pub struct NodeNo(pub u16);

// What stands at a node: its symbol and how many arguments it has.
#[derive(Clone, Copy)]
pub enum Seen {
    Var,
    Con(ConNo, u16),
    Call(FunNo, u16),
    Fwd(NodeNo),
}

impl Seen {
    // How many arguments it has.
    pub fn count(self) -> u16
        ensures { result ≡ count_of self }
    {
        match self {
            Seen::Con(_, k) | Seen::Call(_, k) => k,
            _ => 0,
        }
    }
}

// What a cell is made with.
#[derive(Clone, Copy)]
pub enum Head {
    Makes(ConNo),
    Calls(FunNo),
}

// A frame of a walk: a node, and the argument that comes next.
#[derive(Clone, Copy)]
pub struct Top {
    pub node: NodeNo,
    pub next: u16,
}

// A computation's handles, the value's first: the first n of an array that has room for the most that there can be.
#[derive(Clone, Copy)]
pub struct Roots {
    pub n: usize,
    pub at: [u16; 9],
}

// A cell's count by its word. The words that are written are below 9, so a remainder is not taken there.
fn count_by(word: u16) -> u16
    ensures { result ≡ word % 9 }
{
    if word < 9 { word } else { word % 9 }
}

// The first words of args, count of them, from word `at` on.
fn put_args(s: &mut [u8], at: usize, args: [u16; 8], count: u16)
    requires count_bound { (count ≤ 8) × (at ≤ 1000000) }
    requires at_in_bounds { at + 8 ≤ length (words s.old) }
    ensures is { words s.new ≡ filled (words s.old) at args count }
    ensures long { length (words s.new) ≡ length (words s.old) }
{
    let n = count as usize;
    for j in 0..n {
        mem::put(s, at + j, args[j]);
    }
}

// A cell's head word.
fn head_word(head: Head) -> u16
    ensures { HeadIs result (symbol_of head) }
{
    match head {
        Head::Makes(c) => u16::from_le_bytes([c.0, 1]),
        Head::Calls(f) => u16::from_le_bytes([f.0, 2]),
    }
}
