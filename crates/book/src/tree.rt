// Trees: reading a tree and reading its children call each other, the bytes left falling. Children are read by a loop, so that the stack grows with a tree's depth alone.
// Here, in order: the slots of a pattern; whether a slot can be split; a tree and its children.
// Not here: the terms of a RULE (term), the functions (shelf).
ghost use Rattle.std.specs.Prelude.{◌≡◌, ◌+◌, ◌*◌, ◌≤◌, length, replicate};
ghost use Rattle.book.specs.Reading.{all_fit};
ghost use Rattle.book.specs.Steps.{types_of, Front, Lore, cons_from, live, Kept, CanSplit, SplitIs, AreSplit, IsUnder, AllFit, TreeIs, TreesIs};

use crate::front::type_at;
use crate::record::rec_at;
use crate::term::read_rights;
use crate::{Fault, Kind, Slots, Sort, TypeInfo, TypeNo};

// A function's arguments, the slots at its tree's root.
pub fn arguments(n: usize) -> Slots
    requires { n ≤ 8 }
    ensures { Kept result × (live result ≡ replicate n 1) }
{
    Slots { n, depth: [1; 64] }
}

// What the children of a SPLIT have alike: the tree's slots, the slot split.
fn split_slots(slots: &Slots, slot: usize) -> Slots
    requires { CanSplit slots.now slot }
    ensures { AreSplit slots.now slot result }
{
    let mut child = *slots;
    let depth = &mut child.depth;
    depth[slot] = 8;
    child
}

// A child's slots become those of the child for a constructor of arity a.
pub fn under(slots: &Slots, slot: usize, a: usize, child: &mut Slots)
    requires can_split { CanSplit slots.now slot × (slots.now.n + a ≤ 64) }
    requires are_split { AreSplit slots.now slot child.old }
    ensures { IsUnder slots.now slot a child.new × AreSplit slots.now slot child.new }
{
    let n = slots.n;
    let d = slots.depth[slot];
    child.n = n + a;
    let depth = &mut child.depth;
    depth[n..n + a].fill(d + 1);
}

// Whether the children for the n CONS records at a place have at most 64 slots.
pub fn all_fit(s: &[u8], cons: usize, n: usize, have: usize) -> bool
    requires { (cons + 2 * n ≤ length s.now) × (have ≤ 64) }
    ensures { result ≡ all_fit have (cons_from s.now cons n) }
{
    for i in 0..n {
        if 64 < have + s[cons + 2 * i + 1] as usize {
            return false;
        }
    }
    true
}

// The type by which a slot is split, if it can be.
pub fn splits(s: &[u8], types: usize, slots: &Slots, slot: usize, ty: TypeNo) -> Option<TypeInfo>
    requires { Front s.now types × Kept slots.now }
    ensures { SplitIs s.now slots.now slot ty.0 result }
{
    if slots.n <= slot {
        return None;
    }
    if 8 <= slots.depth[slot] {
        return None;
    }
    if types <= ty.0 as usize {
        return None;
    }
    let i = type_at(s, ty);
    if all_fit(s, i.at + 2, i.count, slots.n) {
        Some(i)
    } else {
        None
    }
}

// A tree: SPLIT, RULE or NONE, in a part of the book.
#[cycle(read_tree_read_trees)]
pub fn read_tree(
    s: &[u8],
    book: &[u8],
    types: usize,
    cons: &[u8],
    funcs: &[u8],
    slots: &Slots,
    at: usize,
) -> Result<usize, Fault>
    requires { Lore book.now cons.now types × Kept slots.now }
    ensures { TreeIs s.now (types_of book.now) funcs.now (live slots.now) at result }
{
    let r = rec_at(s, at)?;
    match r.kind {
        Kind::Split => {
            let slot = r.a as usize;
            let Some(i) = splits(book, types, slots, slot, TypeNo(r.b)) else {
                return Err(Fault::new(Sort::Range, at));
            };
            read_trees(
                s,
                book,
                types,
                cons,
                funcs,
                slots,
                slot,
                i.at + 2,
                i.count,
                r.end,
            )
        }
        Kind::Rule => {
            if r.a == 0 {
                return Err(Fault::new(Sort::Range, at));
            }
            if 16 < r.a {
                return Err(Fault::new(Sort::Range, at));
            }
            read_rights(s, cons, funcs, slots.n, r.a as usize, r.end)
        }
        Kind::None => Ok(r.end),
        _ => Err(Fault::new(Sort::Unexpected, at)),
    }
}

// A tree for each of the n CONS records at `first`, under a SPLIT of the slot. (A part of read_tree: so a tree's level takes one frame of stack.)
#[inline(always)]
#[cycle(read_tree_read_trees)]
pub fn read_trees(
    s: &[u8],
    book: &[u8],
    types: usize,
    cons: &[u8],
    funcs: &[u8],
    slots: &Slots,
    slot: usize,
    first: usize,
    n: usize,
    from: usize,
) -> Result<usize, Fault>
    requires lore { Lore book.now cons.now types × CanSplit slots.now slot }
    requires all_fit { AllFit book.now slots.now.n first n }
    ensures { TreesIs s.now (types_of book.now) funcs.now (live slots.now) slot (cons_from book.now first n) from result }
{
    let mut child = split_slots(slots, slot);
    let mut at = from;
    for i in 0..n {
        let a = book[first + 2 * i + 1] as usize;
        under(slots, slot, a, &mut child);
        at = read_tree(s, book, types, cons, funcs, &child, at)?;
    }
    Ok(at)
}
