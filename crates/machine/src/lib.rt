// The compiled machine on the node store: instructions one by one, the code of a call, and of each call that is walked instead.
// Here: the registers and the answers. code: bytes and operations; tables: arities, starts and arms; ops, makes: the instructions;
// steps: code until it ends; calls: calls that are walked instead, the settled stack.
// specs/View says which state of the machine's definition memory and registers are.
#![tactic(auto)]

pub mod calls;
pub mod code;
pub mod makes;
pub mod ops;
pub mod steps;
pub mod tables;

ghost use Rattle.std.specs.Prelude.{◌≡◌};
ghost use Rattle.machine.specs.View.{emptied};

use store::{Head, NodeNo};

// What the machine carries: the place in the code, the stack's top + 1, as a link in the memory is (0: empty), the current node if
// there is one, how many entries the pre-term stack and the free-variable registers have, and how many nodes are made.
#[derive(Clone, Copy)]
pub struct Regs {
    pub pc: usize,
    pub top: u16,
    pub cur: Option<NodeNo>,
    pub terms: usize,
    pub vars: usize,
    pub made: usize,
}

// An operation of the code; LOAD says how many steps its position has.
#[derive(Clone, Copy)]
pub enum Op {
    Load(u8),
    Branch(u8),
    Go,
    Push,
    Pop,
    MakeAnon,
    StoreVar(u8),
    MakeVar(u8),
    MakeTerm(Head),
    Replace,
    Narrow,
    Choice,
    Fail,
    Wrong,
}

// How code ends: a call is walked instead; a call becomes a forward to a term; a node has alternatives; failed, misfit; the
// code is no compiler's; no node is left.
#[derive(Clone, Copy)]
pub enum Stop {
    Demand(NodeNo),
    Becomes(NodeNo, NodeNo),
    Parts(NodeNo),
    Fails,
    Misfits,
    Broken,
    Full,
}

// Where and how code ended. An instruction gives the registers that the code goes on with, or this.
#[derive(Clone, Copy)]
pub struct Ended {
    pub regs: Regs,
    pub stop: Stop,
}

impl Regs {
    // What a call's code begins with: all registers empty.
    pub fn emptied(top: u16, made: usize) -> Regs
        ensures { result ≡ emptied top made }
    {
        Regs {
            pc: 0,
            top,
            cur: None,
            terms: 0,
            vars: 0,
            made,
        }
    }

    // The code ends here.
    fn ends(self, stop: Stop) -> Result<Regs, Ended>
        ensures { result ≡ Err (record { regs = self; stop = stop }) }
    {
        Err(Ended { regs: self, stop })
    }
}
