// The code's bytes: operations, positions in the code, jumps.
ghost use Rattle.std.specs.Prelude.{◌≡◌, ℕ, ◌+◌, ◌*◌, ◌<◌, ◌≤◌, length, get_or, drop};
ghost use Rattle.engine.specs.Code.{decode, from_four};
ghost use Rattle.machine.specs.Tables.{code_bound};
ghost use Rattle.machine.specs.View.{op_of, width_of, SymbolAt};

use crate::Op;
use book::{ConNo, FunNo};
use store::Head;

// Byte i, 0 beyond the end.
pub fn byte_at(code: &[u8], i: usize) -> u8
    ensures { result ≡ get_or code.now i 0 }
{
    if i < code.len() { code[i] } else { 0 }
}

// MAKETERM's symbol.
fn symbol_at(code: &[u8], at: usize) -> Head
    requires { at ≤ code_bound }
    ensures { SymbolAt code.now at result }
{
    let y = byte_at(code, at + 1);
    if byte_at(code, at) == 0 {
        Head::Makes(ConNo(y))
    } else {
        Head::Calls(FunNo(y))
    }
}

// The operation at a place.
pub fn decode_at(code: &[u8], pc: usize) -> Op
    requires code_len_bound { length code.now ≤ code_bound }
    requires pc_in_bounds { pc < length code.now }
    ensures { op_of code.now pc result ≡ decode (drop pc code.now) }
{
    match code[pc] {
        0x30 => Op::Load(byte_at(code, pc + 1).min(8)),
        0x31 => Op::Branch(byte_at(code, pc + 1)),
        0x32 => Op::Go,
        0x33 => Op::Push,
        0x34 => Op::Pop,
        0x35 => Op::MakeAnon,
        0x36 => Op::StoreVar(byte_at(code, pc + 1)),
        0x37 => Op::MakeVar(byte_at(code, pc + 1)),
        0x38 => Op::MakeTerm(symbol_at(code, pc + 1)),
        0x39 => Op::Replace,
        0x3a => Op::Narrow,
        0x3b => Op::Choice,
        0x3c => Op::Fail,
        _ => Op::Wrong,
    }
}

// How many bytes an operation takes.
pub fn width_of(op: Op) -> usize
    ensures { result ≡ width_of op }
{
    match op {
        Op::Load(_) => 10,
        Op::Branch(_) | Op::StoreVar(_) | Op::MakeVar(_) => 2,
        Op::Go => 5,
        Op::MakeTerm(_) => 3,
        _ => 1,
    }
}

// The place that the j-th GO from `pc` on leads to. Its last byte is read first: where that is there, so are the others.
pub fn jump_to(code: &[u8], pc: usize, j: usize) -> usize
    requires { (pc ≤ code_bound + 16) × (j ≤ 65536) }
    ensures { result ≡ from_four (drop (5 * j + 1) (drop pc code.now)) }
{
    let at = pc + (5 * j + 1);
    let last = byte_at(code, at + 3);
    let bytes = [
        byte_at(code, at),
        byte_at(code, at + 1),
        byte_at(code, at + 2),
        last,
    ];
    u32::from_le_bytes(bytes) as usize
}
