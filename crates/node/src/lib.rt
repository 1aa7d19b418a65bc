// The row table of a data set, node by node. The crates above see no offsets and no lengths.
#![tactic(auto)]

ghost use Rattle.std.specs.Prelude.{◌≡◌, ◌+◌, ◌-◌, ◌*◌, ◌^◌, ◌≤◌, ◌<◌, List, ℕ, length, get_or};
ghost use Rattle.std.specs.Iterator.{YieldsFirst, item_count};
ghost use Rattle.std.specs.Iterator.Runs.{YieldsInOrder};
ghost use Rattle.std.specs.List.{All};
ghost use Rattle.node.specs.Nodes.{nodes_of, node_at, next_node, members, root, inside};
ghost use Rattle.node.specs.Find.{find, filled};
ghost use Rattle.node.specs.Internal.{Table, Ascends, from_tag, first_is, Nearby, lower, Container, StandsIn, MemberAbove};
ghost use Rattle.basics.specs.Limits.{most_rows};
ghost use Rattle.dataset.specs.Answer.{width, flat};
ghost use Rattle.dataset.specs.Tree.{rows_of, row_at};
ghost use Rattle.value.specs.Internal.{Below};

use basics::vrs;
use dataset::WIDTH;
use std::marker::Model;

// How many members a search passes one by one before it goes by halves. (The compiler unrolls a loop of 16 turns, which makes every
// search in an item slower.)
const STEPS: usize = 32;

// Up to this many nodes are searched without halves.
const FEW: usize = 32;

// A data set that was read: its bytes and their row table, which are lent apart: a value borrows the bytes alone. Clauses see the bytes
// alone, since the table follows from them.
#[derive(Drop)]
pub struct DataSet<'a, 'b> {
    bytes: &'a [u8],
    rows: &'b [u32],
}

impl<'a, 'b> Model for DataSet<'a, 'b> {
    ghost Value = { List ℕ };

    ghost view = { λ d. d.bytes.now };

    ghost invariant = { λ d. Table d.bytes.now d.rows.now };
}

impl<'a, 'b> DataSet<'a, 'b> {
    // The data set of these bytes, with the rows that reading them gave.
    pub fn new(bytes: &'a [u8], rows: &'b [u32]) -> DataSet<'a, 'b>
        requires { Table bytes.now rows.now }
        ensures { result ≡ bytes.now }
    {
        DataSet { bytes, rows }
    }

    // The bytes and the row table, as they were lent.
    pub fn bytes(&self) -> &'a [u8]
        ensures { result.now ≡ self.now }
    {
        self.bytes
    }

    pub fn rows(&self) -> &'b [u32]
        ensures { Table self.now result.now }
    {
        self.rows
    }

    // Number k of the row of node i.
    fn number(&self, i: usize, k: usize) -> usize
        requires within { i < length (nodes_of self.now) }
        requires placed { k < width }
        ensures { result ≡ get_or (flat (rows_of self.now)) (width * i + k) 0 }
    {
        let rows = self.rows;
        rows[WIDTH * i + k] as usize
    }

    // How many nodes there are.
    pub fn count(&self) -> usize
        ensures { (result ≡ length (nodes_of self.now)) × (result ≤ most_rows) }
    {
        self.rows.len() / dataset::WIDTH
    }

    pub fn tag(&self, i: usize) -> usize
        requires { i < length (nodes_of self.now) }
        ensures { result ≡ (node_at (nodes_of self.now) i).tag }
    {
        self.number(i, 0)
    }

    pub fn vr(&self, i: usize) -> usize
        requires { i < length (nodes_of self.now) }
        ensures { result ≡ (node_at (nodes_of self.now) i).vr }
    {
        self.number(i, dataset::VR)
    }

    // The node after node i and all below it.
    pub fn next(&self, i: usize) -> usize
        requires { i < length (nodes_of self.now) }
        ensures { (result ≡ next_node (nodes_of self.now) i) × (result ≤ length (nodes_of self.now)) }
    {
        i + 1 + self.number(i, dataset::DESCENDANTS)
    }

    // The members from `from` up to `to`, one by one.
    pub fn members<'s>(&'s self, from: usize, to: usize) -> Members<'s, 'a, 'b>
        requires { to ≤ length (nodes_of self.now) }
        ensures value { result ≡ members (nodes_of self.now) from to }
        ensures known { All (λ i. i < length (nodes_of self.now)) result }
        ensures few { length result < 2 ^ 64 }
        ensures runs { YieldsInOrder (YieldsFirst {A = ℕ} (λ ahead. ahead)) (λ ahead. ahead) }
    {
        Members {
            set: self,
            at: from,
            to,
        }
    }

    // The members of node i: the items of a sequence, or the elements of an item.
    pub fn inside<'s>(&'s self, i: usize) -> Members<'s, 'a, 'b>
        requires { i < length (nodes_of self.now) }
        ensures value { result ≡ inside (nodes_of self.now) i }
        ensures known { All (λ k. k < length (nodes_of self.now)) result }
        ensures few { length result < 2 ^ 64 }
        ensures runs { YieldsInOrder (YieldsFirst {A = ℕ} (λ ahead. ahead)) (λ ahead. ahead) }
    {
        self.members(i + 1, self.next(i))
    }

    // The value of node i, a part of the data set.
    pub fn value(&self, i: usize) -> &'a [u8]
        requires { i < length (nodes_of self.now) }
        ensures { result.now ≡ (node_at (nodes_of self.now) i).value }
    {
        let bytes = self.bytes;
        let kind = self.number(i, dataset::VR);
        if kind == vrs::SQ {
            return &bytes[..0];
        }
        if kind == 0 {
            return &bytes[..0];
        }
        let start = self.number(i, dataset::OFFSET);
        let end = start + self.number(i, dataset::SIZE);
        &bytes[start..end]
    }

    // The element of the tag among the members from `from` up to `to`. The search stops at the first tag not below the one sought.
    fn find_tag(&self, from: usize, to: usize, wanted: usize) -> Option<usize>
        requires { (to ≤ length (nodes_of self.now)) × Ascends (nodes_of self.now) 0 (members (nodes_of self.now) from to) }
        ensures value { result ≡ find (nodes_of self.now) wanted (members (nodes_of self.now) from to) }
        ensures below { Below to result }
    {
        let mut i = from;
        while i < to {
            let here = self.tag(i);
            if wanted <= here {
                return if here == wanted { Some(i) } else { None };
            }
            i = self.next(i);
        }
        None
    }

    // Whether node i has a length that is not 0.
    pub fn is_filled(&self, i: usize) -> bool
        requires { i < length (nodes_of self.now) }
        ensures { result ≡ filled (nodes_of self.now) i }
    {
        if self.vr(i) == vrs::SQ {
            i + 1 != self.next(i)
        } else {
            self.value(i).len() != 0
        }
    }

    // ---- Among many members, by halves

    // The number, counted from 1, of the node that directly holds node i; 0 at the root.
    fn parent(&self, i: usize) -> usize
        requires { i < length (nodes_of self.now) }
        ensures { result ≡ (row_at (rows_of self.now) i).parent }
    {
        self.number(i, dataset::PARENT)
    }

    // A container is named by the number that `parent` answers for its members: 0 is the root. Its first member has that number too.

    // The member of the container `up` that node i is, or is below. There are at most 16 steps.
    fn member_above(&self, up: usize, i: usize) -> usize
        requires { StandsIn self.now up i }
        ensures { MemberAbove self.now up i result }
    {
        let mut m = i;
        loop {
            let above = self.parent(m);
            if above == up {
                return m;
            }
            m = above - 1;
        }
    }

    // The first member of the container `up` whose tag is not below the tag, or `to`, which follows them. Tags never descend among members,
    // so each step leaves at most half of the nodes.
    fn first_from(&self, up: usize, to: usize, wanted: usize) -> usize
        requires { Container self.now up to }
        ensures { result ≡ lower (nodes_of self.now) wanted (members (nodes_of self.now) up to) to }
    {
        let mut low = up;
        let mut high = to;
        while low < high {
            let m = self.member_above(up, low + (high - low) / 2);
            if self.tag(m) < wanted {
                low = self.next(m);
            } else {
                high = m;
            }
        }
        low
    }

    // The first member from `from` up to `to` whose tag is not below the tag, or what follows them, if it is not far.
    fn near(&self, from: usize, to: usize, wanted: usize) -> Option<usize>
        requires { to ≤ length (nodes_of self.now) }
        ensures { Nearby (nodes_of self.now) wanted from to result }
    {
        let mut k = from;
        let mut left = STEPS;
        while 0 < left {
            if k < to {
                if self.tag(k) < wanted {
                    k = self.next(k);
                    left -= 1;
                } else {
                    return Some(k);
                }
            } else {
                return Some(k);
            }
        }
        None
    }

    // The same among the members of the container `up`, which `to` follows, however far it is; the search starts at `from`, which is at or
    // before it.
    pub fn reach(&self, up: usize, from: usize, to: usize, wanted: usize) -> usize
        requires { Container self.now up to
            × (from_tag (nodes_of self.now) wanted (members (nodes_of self.now) from to) ≡ from_tag (nodes_of self.now) wanted (members (nodes_of self.now) up to)) }
        ensures { members (nodes_of self.now) result to ≡ from_tag (nodes_of self.now) wanted (members (nodes_of self.now) up to) }
    {
        match self.near(from, to, wanted) {
            Some(n) => n,
            None => self.first_from(up, to, wanted),
        }
    }

    // The first of the members from `i` up to `to`, if it has the tag.
    pub fn first_is(&self, i: usize, to: usize, wanted: usize) -> Option<usize>
        requires { to ≤ length (nodes_of self.now) }
        ensures value { result ≡ first_is (nodes_of self.now) wanted (members (nodes_of self.now) i to) }
        ensures below { Below to result }
    {
        if i < to {
            if self.tag(i) == wanted { Some(i) } else { None }
        } else {
            None
        }
    }

    // The element of the tag in the container `up`, as `find_tag` finds it. Among few nodes `find_in_item` does not call this, so the compiler
    // keeps it out of its callers.
    fn find_wide(&self, up: usize, to: usize, wanted: usize) -> Option<usize>
        requires { Container self.now up to }
        ensures value { result ≡ find (nodes_of self.now) wanted (members (nodes_of self.now) up to) }
        ensures below { Below to result }
    {
        let i = self.reach(up, up, to, wanted);
        self.first_is(i, to, wanted)
    }

    // The element of the tag in an item, or directly in another node, `holder`.
    pub fn find_in_item(&self, holder: usize, wanted: usize) -> Option<usize>
        requires { holder < length (nodes_of self.now) }
        ensures value { result ≡ find (nodes_of self.now) wanted (inside (nodes_of self.now) holder) }
        ensures below { Below (length (nodes_of self.now)) result }
    {
        let to = self.next(holder);
        if to - holder <= FEW {
            return self.find_tag(holder + 1, to, wanted);
        }
        self.find_wide(holder + 1, to, wanted)
    }

    // The element of the tag in the root.
    pub fn find_root(&self, wanted: usize) -> Option<usize>
        ensures value { result ≡ find (nodes_of self.now) wanted (root (nodes_of self.now)) }
        ensures below { Below (length (nodes_of self.now)) result }
    {
        self.find_wide(0, self.count(), wanted)
    }
}

// The members that are still ahead in a container: from `at` up to `to`. Clauses see the list of their numbers.
#[derive(Drop)]
pub struct Members<'s, 'a, 'b> {
    set: &'s DataSet<'a, 'b>,
    at: usize,
    to: usize,
}

impl<'s, 'a, 'b> Model for Members<'s, 'a, 'b> {
    ghost Value = { List ℕ };

    ghost view = { λ m. members (nodes_of m.set.now) m.at m.to };

    ghost invariant = { λ m. m.to ≤ length (nodes_of m.set.now) };
}

impl<'s, 'a, 'b> Iterator for Members<'s, 'a, 'b> {
    type Item = usize;

    ghost next_gives = { YieldsFirst {A = ℕ} (λ ahead. ahead) };

    ghost remaining = { item_count {A = ℕ} (λ ahead. ahead) };

    fn next(&mut self) -> Option<usize> {
        let i = self.at;
        if i < self.to {
            self.at = self.set.next(i);
            Some(i)
        } else {
            None
        }
    }
}
