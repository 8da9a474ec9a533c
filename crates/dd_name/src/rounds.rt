ghost use Rattle.std.specs.Prelude.{◌≡◌, ◌+◌, ◌*◌, ◌<◌, ◌≤◌, List, IfOk, OnOk};
ghost use Rattle.dd_name.specs.Flags.{IsFlag};
ghost use Rattle.dd_name.specs.Rounds.{AreRounds};
ghost use Rattle.dd_name.specs.Marks.{IsMarked, AreMarks, IsNewRound, AreTold};

use crate::flags::{Flag, first_pair};
use crate::joints::Joint;
use dd_model::Memory;
use dd_symbol::{Connected, Symbol};
use std::alloc::Global;
use std::marker::Model;

/// Once round a boundary.
#[derive(Drop)]
pub(crate) struct Round {
    joints: Vec<Joint>,
}

impl Model for Round {
    ghost use Rattle.std.specs.Prelude.{◌≡◌, List};
    ghost use Rattle.dd_name.specs.declared.joints.Joint.{Joint as Step};

    ghost Value = { List Step };

    ghost view = { λ a. a.joints.items };
}

impl Round {
    /// The joints in order.
    pub fn as_slice(&self) -> &[Joint]
        ensures { result.now ≡ self.now }
    {
        self.joints.as_slice()
    }
}

/// The round that begins at a flag which is not marked. Its flags are marked.
fn round_from(
    alloc: Global,
    symbol: &Symbol,
    marks: &mut [bool],
    start: Flag,
) -> Result<Round, Memory>
    requires flag { IsFlag symbol.now start }
    requires marks { AreMarks symbol.now marks.old }
    requires fresh { IsMarked marks.old start → ⊥ }
    ensures marks { OnOk result (AreMarks symbol.now marks.new) }
    ensures round { IfOk result (λ round. IsNewRound symbol.now start marks.old marks.new round) }
{
    let mut joints = Vec::new(alloc);
    let mut current = Joint::at(symbol, start, first_pair(start.index));
    while !marks[current.flag.place()] {
        marks[current.flag.place()] = true;
        joints.push(current)?;
        current = current.next(symbol);
    }
    Ok(Round { joints })
}

/// Looks at the flag at a place: adds the round that begins there, unless no involution fixes the
/// chamber, or the flag is on an earlier round.
fn look_at(
    alloc: Global,
    s: &Connected,
    place: usize,
    marks: &mut [bool],
    rounds: &mut Vec<Round>,
) -> Result<(), Memory>
    requires low { 3 ≤ place }
    requires high { place < 3 * s.now.size + 3 }
    requires told { AreTold s.now place marks.old rounds.old.items }
    ensures { OnOk result (AreTold s.now (place + 1) marks.new rounds.new.items) }
{
    let symbol = s.symbol();
    let flag = Flag::at(place);
    if symbol.op(flag.index, flag.chamber) != flag.chamber || marks[place] {
        return Ok(());
    }
    let round = round_from(alloc, symbol, marks, flag)?;
    Ok(rounds.push(round)?)
}

/// The boundaries, ascending by the flags at which they begin.
pub(crate) fn rounds(alloc: Global, s: &Connected) -> Result<Vec<Round>, Memory>
    ensures { IfOk result (λ rounds. AreRounds s.now rounds.items) }
{
    let size = s.symbol().size() as usize;
    let mut rounds = Vec::new(alloc);
    let mut marks = vec![in alloc; false; 3 * size + 3]?;
    for place in 3..3 * size + 3 {
        look_at(alloc, s, place, &mut marks, &mut rounds)?;
    }
    Ok(rounds)
}
