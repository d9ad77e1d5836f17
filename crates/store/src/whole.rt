// The store as one value: the lent bytes and the node limit, with room for that many nodes.
// Here, in order: the two values, a store that is written and a view that is only read; the view's reads; the store's reads, each through its view, and
// its writes: nodes, a node's mark, link and place, the list, frames of a walk, the rest.
// Not here: what stands on which word (specs/Regions).
ghost use Rattle.store.specs.Regions.{Room};

use crate::{Head, NodeNo, Seen, Top};
use book::{ConNo, FunNo};

// Lent bytes with room for `limit` nodes.
#[derive(Drop)]
pub struct Store<'a> {
    pub bytes: &'a mut [u8],
    pub limit: usize,
    pub ghost room: { Room limit bytes.now },
}

// Lent bytes that are only read, with room for `limit` nodes. Who holds nothing but a shared loan makes one; a store has one of itself.
#[derive(Clone, Copy)]
pub struct View<'a> {
    pub bytes: &'a [u8],
    pub limit: usize,
    pub ghost room: { Room limit bytes.now },
}

impl<'a> View<'a> {
    ghost use Rattle.std.specs.Prelude.{◌≡◌, ◌+◌, ◌*◌, ◌<◌, length, get_or};
    ghost use Rattle.mem.specs.Words.{words};
    ghost use Rattle.heap.specs.Graph as g;
    ghost use Rattle.store.specs.Rows.{seen};
    ghost use Rattle.store.specs.Regions.{graph_of, marks_of, links_of, list_of, places_of, frames_of, rest_of};

    // What stands at a node.
    pub fn look(self, n: NodeNo) -> Seen
        requires { n.0 < self.limit }
        ensures { result ≡ seen (g.node (graph_of self.entry.limit self.entry.bytes.now) n.0) }
    {
        let at = 10 * (n.0 as usize);
        let [symbol, kind] = mem::get(self.bytes, at).to_le_bytes();
        match kind {
            0 => Seen::Var,
            1 => Seen::Con(ConNo(symbol), crate::count_by(mem::get(self.bytes, at + 1))),
            2 => Seen::Call(FunNo(symbol), crate::count_by(mem::get(self.bytes, at + 1))),
            _ => Seen::Fwd(NodeNo(mem::get(self.bytes, at + 2))),
        }
    }

    // Argument j of a node.
    pub fn arg(self, n: NodeNo, j: u16) -> NodeNo
        requires n_lt_limit { n.0 < self.limit }
        requires j_in_bounds { j < length (g.args (g.node (graph_of self.limit self.bytes.now) n.0)) }
        ensures { result.0 ≡ get_or (g.args (g.node (graph_of self.entry.limit self.entry.bytes.now) n.0)) j 0 }
    {
        NodeNo(mem::get(self.bytes, 10 * (n.0 as usize) + 2 + (j as usize)))
    }

    // The end of the forwards from a node.
    pub fn follow(self, n: NodeNo) -> NodeNo
        ensures { result.0 ≡ g.follow (graph_of self.entry.limit self.entry.bytes.now) n.0 }
    {
        let mut at = n;
        for _ in 0..self.limit {
            if at.0 as usize >= self.limit {
                return at;
            }
            let Seen::Fwd(t) = self.look(at) else {
                return at;
            };
            at = t;
        }
        at
    }

    // A node's mark.
    pub fn mark(self, n: NodeNo) -> u16
        requires { n.0 < self.limit }
        ensures { result ≡ get_or (marks_of self.entry.limit self.entry.bytes.now) n.0 0 }
    {
        mem::get(self.bytes, 10 * self.limit + (n.0 as usize))
    }

    // A node's link.
    pub fn link(self, n: NodeNo) -> u16
        requires { n.0 < self.limit }
        ensures { result ≡ get_or (links_of self.entry.limit self.entry.bytes.now) n.0 0 }
    {
        mem::get(self.bytes, 11 * self.limit + (n.0 as usize))
    }

    // A node's place + 1, or 0.
    pub fn place(self, n: NodeNo) -> u16
        requires { n.0 < self.limit }
        ensures { result ≡ get_or (places_of self.entry.limit self.entry.bytes.now) n.0 0 }
    {
        mem::get(self.bytes, 13 * self.limit + (n.0 as usize))
    }

    // Node k of the list.
    pub fn listed(self, k: usize) -> NodeNo
        requires { k < self.limit }
        ensures { result.0 ≡ get_or (list_of self.entry.limit self.entry.bytes.now) k 0 }
    {
        NodeNo(mem::get(self.bytes, 12 * self.limit + k))
    }

    // Frame d.
    pub fn frame(self, d: usize) -> Top
        requires { d < self.limit }
        ensures { (result.node.0 ≡ get_or (frames_of self.entry.limit self.entry.bytes.now) (2 * d) 0) × (result.next ≡ get_or (frames_of self.entry.limit self.entry.bytes.now) (2 * d + 1) 0) }
    {
        let at = 14 * self.limit + 2 * d;
        Top {
            node: NodeNo(mem::get(self.bytes, at)),
            next: mem::get(self.bytes, at + 1),
        }
    }

    // Word k of the rest: pool, tables and registers.
    pub fn rest(self, k: usize) -> u16
        requires { (k < 65536) × (16 * self.limit + k < length (words self.bytes.now)) }
        ensures { result ≡ get_or (rest_of self.entry.limit self.entry.bytes.now) k 0 }
    {
        mem::get(self.bytes, 16 * self.limit + k)
    }
}

impl<'a> Store<'a> {
    ghost use Rattle.std.specs.Prelude.{◌≡◌, ◌+◌, ◌*◌, ◌<◌, ◌≤◌, length, get_or, take};
    ghost use Rattle.mem.specs.Words.{words};
    ghost use Rattle.heap.specs.Graph as g;
    ghost use Rattle.store.specs.Rows.{seen, symbol_of, with_arg};
    ghost use Rattle.store.specs.Regions.{set_node, set_mark, set_link, set_list, set_place, set_next, set_frame, set_rest};
    ghost use Rattle.store.specs.Whole.{graph, arg_row, marks, links, list, places, frames, rest, Became};

    // The same, only read.
    #[inline]
    pub fn view(&self) -> View
        ensures limit { result.limit ≡ self.now.limit }
        ensures bytes { result.bytes.now ≡ self.now.bytes.now }
    {
        View {
            bytes: self.bytes,
            limit: self.limit,
        }
    }

    // What stands at a node.
    #[inline]
    pub fn look(&self, n: NodeNo) -> Seen
        requires { n.0 < self.now.limit }
        ensures { result ≡ seen (g.node (graph self.now) n.0) }
    {
        self.view().look(n)
    }

    // Argument j of a node.
    #[inline]
    pub fn arg(&self, n: NodeNo, j: u16) -> NodeNo
        requires n_lt_limit { n.0 < self.now.limit }
        requires j_in_bounds { j < length (g.args (g.node (graph self.now) n.0)) }
        ensures { result.0 ≡ get_or (g.args (g.node (graph self.now) n.0)) j 0 }
    {
        self.view().arg(n, j)
    }

    // The end of the forwards from a node.
    #[inline]
    pub fn follow(&self, n: NodeNo) -> NodeNo
        ensures { result.0 ≡ g.follow (graph self.now) n.0 }
    {
        self.view().follow(n)
    }

    // Node n becomes a variable.
    pub fn put_var(&mut self, n: NodeNo)
        requires { n.0 < self.old.limit }
        ensures { Became self.old self.new (set_node n.0 g.var) }
    {
        mem::put(self.bytes, 10 * (n.0 as usize), 0);
    }

    // Node n becomes a forward.
    pub fn put_fwd(&mut self, n: NodeNo, to: NodeNo)
        requires { n.0 < self.old.limit }
        ensures { Became self.old self.new (set_node n.0 (g.fwd to.0)) }
    {
        let at = 10 * (n.0 as usize);
        mem::put(self.bytes, at, u16::from_le_bytes([0, 3]));
        mem::put(self.bytes, at + 2, to.0);
    }

    // Node n becomes a cell with the first `count` of args.
    pub fn put_cell(&mut self, n: NodeNo, head: Head, args: [u16; 8], count: u16)
        requires n_lt_limit { n.0 < self.old.limit }
        requires count_bound { count ≤ 8 }
        ensures { Became self.old self.new (set_node n.0 (g.cell (symbol_of head) (take count args))) }
    {
        let at = 10 * (n.0 as usize);
        mem::put(self.bytes, at, crate::head_word(head));
        mem::put(self.bytes, at + 1, count);
        crate::put_args(self.bytes, at + 2, args, count);
    }

    // Node n becomes a cell with `count` arguments, which are whatever their words hold: put_arg writes them.
    pub fn put_head(&mut self, n: NodeNo, head: Head, count: u16)
        requires n_lt_limit { n.0 < self.old.limit }
        requires count_bound { count ≤ 8 }
        ensures { Became self.old self.new (set_node n.0 (g.cell (symbol_of head) (take count (arg_row n.0 self.old)))) }
    {
        let at = 10 * (n.0 as usize);
        mem::put(self.bytes, at, crate::head_word(head));
        mem::put(self.bytes, at + 1, count);
    }

    // Argument j of node n becomes v.
    pub fn put_arg(&mut self, n: NodeNo, j: u16, v: u16)
        requires n_lt_limit { n.0 < self.old.limit }
        requires j_in_bounds { j < length (g.args (g.node (graph self.old) n.0)) }
        ensures { Became self.old self.new (set_node n.0 (with_arg j v (g.node (graph self.old) n.0))) }
    {
        mem::put(self.bytes, 10 * (n.0 as usize) + 2 + (j as usize), v);
    }

    // The words of the regions, one by one. Each region has methods of its own: a body is one line, and at a call the name says which region is meant.
    // A node's mark.
    #[inline]
    pub fn mark(&self, n: NodeNo) -> u16
        requires { n.0 < self.now.limit }
        ensures { result ≡ get_or (marks self.now) n.0 0 }
    {
        self.view().mark(n)
    }

    pub fn put_mark(&mut self, n: NodeNo, v: u16)
        requires { n.0 < self.old.limit }
        ensures { Became self.old self.new (set_mark n.0 v) }
    {
        mem::put(self.bytes, 10 * self.limit + (n.0 as usize), v);
    }

    // A node's link.
    #[inline]
    pub fn link(&self, n: NodeNo) -> u16
        requires { n.0 < self.now.limit }
        ensures { result ≡ get_or (links self.now) n.0 0 }
    {
        self.view().link(n)
    }

    pub fn put_link(&mut self, n: NodeNo, v: u16)
        requires { n.0 < self.old.limit }
        ensures { Became self.old self.new (set_link n.0 v) }
    {
        mem::put(self.bytes, 11 * self.limit + (n.0 as usize), v);
    }

    // A node's place + 1, or 0.
    #[inline]
    pub fn place(&self, n: NodeNo) -> u16
        requires { n.0 < self.now.limit }
        ensures { result ≡ get_or (places self.now) n.0 0 }
    {
        self.view().place(n)
    }

    pub fn put_place(&mut self, n: NodeNo, v: u16)
        requires { n.0 < self.old.limit }
        ensures { Became self.old self.new (set_place n.0 v) }
    {
        mem::put(self.bytes, 13 * self.limit + (n.0 as usize), v);
    }

    // Node k of the list.
    #[inline]
    pub fn listed(&self, k: usize) -> NodeNo
        requires { k < self.now.limit }
        ensures { result.0 ≡ get_or (list self.now) k 0 }
    {
        self.view().listed(k)
    }

    pub fn put_listed(&mut self, k: usize, n: NodeNo)
        requires { k < self.old.limit }
        ensures { Became self.old self.new (set_list k n.0) }
    {
        mem::put(self.bytes, 12 * self.limit + k, n.0);
    }

    // Frame d.
    #[inline]
    pub fn frame(&self, d: usize) -> Top
        requires { d < self.now.limit }
        ensures { (result.node.0 ≡ get_or (frames self.now) (2 * d) 0) × (result.next ≡ get_or (frames self.now) (2 * d + 1) 0) }
    {
        self.view().frame(d)
    }

    // Frame d becomes node n with the argument `next`.
    pub fn put_frame(&mut self, d: usize, n: NodeNo, next: u16)
        requires { d < self.old.limit }
        ensures { Became self.old self.new (set_frame d n.0 next) }
    {
        let at = 14 * self.limit + 2 * d;
        mem::put(self.bytes, at, n.0);
        mem::put(self.bytes, at + 1, next);
    }

    // Frame d goes on with the argument `next`.
    pub fn put_next(&mut self, d: usize, next: u16)
        requires { d < self.old.limit }
        ensures { Became self.old self.new (set_next d next) }
    {
        mem::put(self.bytes, 14 * self.limit + 2 * d + 1, next);
    }

    // Word k of the rest: pool, tables and registers.
    #[inline]
    pub fn rest(&self, k: usize) -> u16
        requires { (k < 65536) × (16 * self.now.limit + k < length (words self.now.bytes.now)) }
        ensures { result ≡ get_or (rest self.now) k 0 }
    {
        self.view().rest(k)
    }

    pub fn put_rest(&mut self, k: usize, v: u16)
        requires { (k < 65536) × (16 * self.old.limit + k < length (words self.old.bytes.now)) }
        ensures { Became self.old self.new (set_rest k v) }
    {
        mem::put(self.bytes, 16 * self.limit + k, v);
    }
}
