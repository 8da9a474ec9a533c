ghost use Rattle.std.specs.Prelude.{◌≡◌, ◌++◌, [], length, IfOk, OnOk};
ghost use Rattle.dd_model.specs.Line.{IsLine};
ghost use Rattle.dd_suite_commands.specs.Totals.{counted_in};
ghost use Rattle.dd_suite_exercise.specs.Tallies.{IsShort, CountsOne};
ghost use Rattle.dd_suite_exercise.specs.Exercise.{tally_text};

use dd_model::Memory;
use dd_suite_commands::{Totals, group_of};
use dd_symbol::Connected;
use dd_text::put_line;
use std::alloc::Global;

/// What is counted of items.
#[derive(Drop)]
pub(crate) struct Tally {
    /// The chambers of all.
    pub chambers: u64,
    /// How often each came, by their lines.
    pub classes: Totals,
    /// How often each name of a group came.
    pub groups: Totals,
}

impl Tally {
    /// Returns the tally of no items.
    pub fn new(alloc: Global) -> Tally
        ensures chambers { result.chambers ≡ 0 }
        ensures classes { counted_in result.classes ≡ [] }
        ensures groups { counted_in result.groups ≡ [] }
    {
        Tally {
            chambers: 0,
            classes: Totals::new(alloc),
            groups: Totals::new(alloc),
        }
    }

    /// Counts an item more.
    pub fn add(&mut self, alloc: Global, form: &Connected) -> Result<(), Memory>
        requires { IsShort self.old }
        ensures { OnOk result (CountsOne form.now self.old self.new) }
    {
        let symbol = form.symbol();
        self.chambers += symbol.size() as u64;
        self.classes.add(line_of(alloc, form)?)?;
        self.groups.add(group_of(alloc, form)?)?;
        Ok(())
    }

    /// Returns the text about `count` items.
    pub fn text(&self, alloc: Global, count: u32) -> Result<Vec<u8>, Memory>
        ensures { IfOk result (λ text. text.items ≡ tally_text count self.now.chambers
            (length (counted_in self.now.classes)) (counted_in self.now.groups)) }
    {
        let classes = self.classes.len();
        let head = format!(in alloc;
            "made {count}\nchambers {}\nclasses {classes}\n",
            self.chambers
        )?;
        let mut text = Vec::new(alloc);
        text.extend_from_slice(head.as_bytes())?;
        self.groups.put("group", &mut text)?;
        Ok(text)
    }
}

/// The line of a symbol, as if it were the first.
fn line_of(alloc: Global, form: &Connected) -> Result<Vec<u8>, Memory>
    ensures { IfOk result (λ line. IsLine 1 form.now line.items) }
{
    let mut line = Vec::new(alloc);
    put_line(&mut line, 1, form.symbol())?;
    Ok(line)
}
