// Code bytes, written one behind the other. A function answers the place behind what it wrote.
// Here, in order: the kinds of code records; bytes; a GO.
// Not here: LOAD (position), what is written for which record (term, rule, arm, tree).
ghost use Rattle.std.specs.Prelude.{◌≡◌, ◌∷◌, ◌+◌, ◌≤◌, length};
ghost use Rattle.engine.specs.Code.{four};
ghost use Rattle.compiler.specs.Rows.{Emits};

// A code record's first byte, its kind.
pub const LOAD: u8 = 0x30;

pub const BRANCH: u8 = 0x31;

pub const GO: u8 = 0x32;

pub const PUSH: u8 = 0x33;

pub const POP: u8 = 0x34;

pub const MAKEANON: u8 = 0x35;

pub const STOREVAR: u8 = 0x36;

pub const MAKEVAR: u8 = 0x37;

pub const MAKETERM: u8 = 0x38;

pub const REPLACE: u8 = 0x39;

pub const NARROW: u8 = 0x3A;

pub const CHOICE: u8 = 0x3B;

pub const FAIL: u8 = 0x3C;

// Bytes of code.
pub fn put(code: &mut [u8], o: usize, bytes: &[u8]) -> usize
    requires { o + length bytes.now ≤ length code.old }
    ensures { Emits code.old code.new o result bytes.now }
{
    let end = o + bytes.len();
    code[o..end].copy_from_slice(bytes);
    end
}

// A GO to a place of the code.
pub fn put_go(code: &mut [u8], o: usize, to: usize) -> usize
    requires { o + 5 ≤ length code.old }
    ensures { Emits code.old code.new o result (0x32 ∷ four to) }
{
    let [a, b, c, d, ..] = to.to_le_bytes();
    put(code, o, &[GO, a, b, c, d])
}
