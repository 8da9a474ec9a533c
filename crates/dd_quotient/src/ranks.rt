ghost use Rattle.std.specs.Prelude.{◌≡◌, ℕ, ◌-◌, ◌≤◌, length, IfOk, OnOk};
ghost use Rattle.dd_model.specs.Symbol.{IsChamber, item};
ghost use Rattle.dd_quotient.specs.Ranks.{HaveLeaders, IsRank, AreRanks, AreValues, image_of, degree_of};
ghost use Rattle.dd_model.specs.Small.{most_chambers};

use dd_model::{Index, Memory, Pair};
use dd_symbol::Symbol;
use std::alloc::Global;

/// The classes of alike chambers in the order of their leaders, the least chambers in them.
#[derive(Drop)]
pub(crate) struct Ranks {
    /// The leaders, ascending.
    pub leaders: Vec<u32>,
    /// For each chamber the rank of the leader of its class, counted from 1.
    pub ranks: Vec<u32>,
}

impl Ranks {
    /// Takes the next chamber in, whose class may have a leader that is known.
    fn add(&mut self, classes: &[u32], chamber: u32) -> Result<(), Memory>
        requires led { HaveLeaders classes.now }
        requires low { 1 ≤ chamber }
        requires high { chamber ≤ length classes.now }
        requires before { AreRanks classes.now self.old.leaders.items self.old.ranks.items
            (chamber - 1) }
        ensures { OnOk result (AreRanks classes.now self.new.leaders.items self.new.ranks.items
            chamber) }
    {
        let leader = classes[chamber as usize - 1];
        if leader == chamber {
            self.leaders.push(chamber)?;
            self.ranks.push(self.leaders.len() as u32)?;
            return Ok(());
        }
        let rank = self.ranks[leader as usize - 1];
        Ok(self.ranks.push(rank)?)
    }
}

/// The leaders of classes, and the rank of each chamber.
pub(crate) fn ranks_of(alloc: Global, classes: &[u32]) -> Result<Ranks, Memory>
    requires led { HaveLeaders classes.now }
    requires few { length classes.now ≤ most_chambers }
    ensures { IfOk result (λ all. AreRanks classes.now all.leaders.items all.ranks.items
        (length classes.now)) }
{
    let mut all = Ranks {
        leaders: Vec::new(alloc),
        ranks: Vec::with_capacity(alloc, classes.len())?,
    };
    for k in 0..classes.len() as u32 {
        all.add(classes, k + 1)?;
    }
    Ok(all)
}

/// For each rank the rank of the image of its leader under an involution.
pub(crate) fn images_of(
    alloc: Global,
    s: &Symbol,
    leaders: &[u32],
    ranks: &[u32],
    i: Index,
) -> Result<Vec<u32>, Memory>
    requires chambers { (e : ℕ) → IsRank leaders.now e → IsChamber s.now (item leaders.now e) }
    requires ranks { length ranks.now ≡ s.now.size }
    ensures { IfOk result (λ images. AreValues (image_of s.now leaders.now ranks.now i)
        (length leaders.now) images.items) }
{
    let mut images = Vec::with_capacity(alloc, leaders.len())?;
    for leader in leaders {
        images.push(ranks[s.op(i, *leader) as usize - 1])?;
    }
    Ok(images)
}

/// For each rank the degree of its leader.
pub(crate) fn degrees_of(
    alloc: Global,
    s: &Symbol,
    leaders: &[u32],
    pair: Pair,
) -> Result<Vec<u32>, Memory>
    requires { (e : ℕ) → IsRank leaders.now e → IsChamber s.now (item leaders.now e) }
    ensures { IfOk result (λ degrees. AreValues (degree_of s.now leaders.now pair)
        (length leaders.now) degrees.items) }
{
    let mut degrees = Vec::with_capacity(alloc, leaders.len())?;
    for leader in leaders {
        degrees.push(s.degree(pair, *leader))?;
    }
    Ok(degrees)
}
