ghost use Rattle.std.specs.Prelude.{◌≡◌, ℕ, ◌<◌, length, slice_index, IfOk};
ghost use Rattle.std.specs.Bool.{OnTrue, OnFalse};
ghost use Rattle.dd_union_find.specs.Parts.{IsFalling, IsLevel, AreInOnePart, HaveSameParts, AreJoinedAt, AreJoinedAlong};

use dd_model::Memory;
use std::alloc::Global;
use std::marker::Model;

/// Nodes that are joined, part by part. Contracts see it as the list of the nodes above each node.
#[derive(Drop)]
pub struct Forest {
    above: Vec<u32>,
}

impl Model for Forest {
    ghost use Rattle.std.specs.Prelude.{ℕ, List};
    ghost use Rattle.dd_union_find.specs.Parts.{IsFalling};

    ghost Value = { List ℕ };

    ghost view = { λ f. f.above.items };

    ghost invariant = { λ f. IsFalling f.above.items };
}

/// Returns the head of a node's part. On the way up each second node is put below the one above the
/// next.
fn head(above: &mut Vec<u32>, node: u32) -> u32
    requires falls { IsFalling above.old.items }
    requires node { node < length above.old.items }
    ensures falls { IsFalling above.new.items }
    ensures parts { HaveSameParts above.old.items above.new.items }
    ensures inside { result < length above.new.items }
    ensures head { slice_index above.new.items result ≡ result }
    ensures in_part { AreInOnePart above.old.items result node }
    ensures others { (n : ℕ) → slice_index above.old.items n ≡ n
        → slice_index above.new.items n ≡ n }
{
    let mut place = node;
    while above[place as usize] != place {
        let next = above[above[place as usize] as usize];
        above[place as usize] = next;
        place = next;
    }
    place
}

impl Forest {
    /// Makes the nodes 0 to `nodes` - 1, each a part of its own.
    pub fn new(alloc: Global, nodes: u32) -> Result<Forest, Memory>
        ensures many { IfOk result (λ forest. length forest ≡ nodes) }
        ensures falls { IfOk result (λ forest. IsFalling forest) }
        ensures level { IfOk result (λ forest. (h : ℕ → ℕ) → IsLevel forest h) }
    {
        let mut above = Vec::with_capacity(alloc, nodes as usize)?;
        for node in 0..nodes {
            above.push(node)?;
        }
        Ok(Forest { above })
    }

    /// Returns whether a node is the smallest one of its part.
    pub fn is_smallest(&self, node: u32) -> bool
        requires { node < length self.now }
        ensures yes { OnTrue result ((n : ℕ) → n < node → ¬ AreInOnePart self.now n node) }
        ensures no { OnFalse result ((n : ℕ) × (n < node) × AreInOnePart self.now n node) }
    {
        self.above[node as usize] == node
    }

    /// Joins the parts of two nodes, and returns whether they were two.
    pub fn join(&mut self, one: u32, other: u32) -> bool
        requires one { one < length self.old }
        requires other { other < length self.old }
        ensures falls { IsFalling self.new }
        ensures joined { AreJoinedAt self.old one other self.new }
        ensures two { OnTrue result (¬ AreInOnePart self.old one other) }
        ensures one_part { OnFalse result (AreInOnePart self.old one other) }
    {
        let first = head(&mut self.above, one);
        let second = head(&mut self.above, other);
        self.above[first.max(second) as usize] = first.min(second);
        first != second
    }

    /// Joins, for each place of two lists of one length, the parts of the two nodes there.
    pub fn join_along(&mut self, ones: &[u32], others: &[u32])
        requires lengths { length others.now ≡ length ones.now }
        requires ones { (k : ℕ) → k < length ones.now → slice_index ones.now k < length self.old }
        requires others { (k : ℕ) → k < length ones.now
            → slice_index others.now k < length self.old }
        ensures { AreJoinedAlong self.old ones.now others.now (length ones.now) self.new }
    {
        for k in 0..ones.len() {
            self.join(ones[k], others[k]);
        }
    }
}
