ghost use Rattle.std.specs.Prelude.{◌≡◌, OnOk, OnErr};
ghost use Rattle.dd_model.specs.Longer.{IsLonger};
ghost use Rattle.dd_text.specs.Writing.{AddsLines};

use crate::outline::Outline;
use dd_member_lists::Symbols;
use dd_model::Memory;

/// Appends the lines of the symbols of a list, numbered from `before + 1` on. At `Err` the text is
/// as before.
pub fn put_list(out: &mut Vec<u8>, before: u64, symbols: &Symbols<'_>) -> Result<(), Memory>
    ensures lines { OnOk result (AddsLines before symbols.now out.old.items out.new.items) }
    ensures same { OnErr result (out.new.items ≡ out.old.items) }
{
    let length = out.len();
    let written = append_list(out, before, symbols);
    if written.is_err() {
        out.truncate(length);
    }
    written
}

/// The outline of a line is made anew only where the next symbols of the list have another table.
fn append_list(out: &mut Vec<u8>, before: u64, symbols: &Symbols<'_>) -> Result<(), Memory>
    ensures lines { OnOk result (AddsLines before symbols.now out.old.items out.new.items) }
    ensures longer { IsLonger out.old.items out.new.items }
{
    if symbols.len() == 0 {
        return Ok(());
    }
    let mut outline = Outline::new(*out.allocator(), u128::from(before))?;
    let mut place = 0;
    while place < symbols.len() {
        let alike = symbols.alike_from(place);
        outline.make(alike.table().symbol())?;
        for k in 0..alike.len() {
            outline.advance()?;
            outline.put_listed(out, &alike.get(k))?;
        }
        place += alike.len();
    }
    Ok(())
}
