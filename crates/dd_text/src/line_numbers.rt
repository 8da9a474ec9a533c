ghost use Rattle.std.specs.Prelude.{◌+◌, ◌^◌, ◌<◌, ◌≤◌, ℕ, List, length, IfOk};
ghost use Rattle.dd_text.specs.Numbered.{IsNumbered};

use dd_model::Memory;

/// Where the number of a line begins, after `<1.`.
const NUMBER_START: usize = 3;

/// Counts up the number of a line, which ends at a place, and returns where it ends then. The nines
/// at its end become zeros, and the digit before them increases by one.
pub(crate) fn count_up(text: &mut Vec<u8>, end: usize) -> Result<usize, Memory>
    requires some { 3 ≤ end }
    requires within { end ≤ length text.old.items }
    ensures { IfOk result (λ later. (k : ℕ) (rest : List ℕ) → k + 1 < 10 ^ 64
        → IsNumbered k rest text.old.items end → IsNumbered (k + 1) rest text.new.items later) }
{
    let mut place = end;
    while place > NUMBER_START {
        place -= 1;
        if text[place] < b'9' {
            text[place] += 1;
            return Ok(end);
        }
        text[place] = b'0';
    }
    text.insert(NUMBER_START, b'1')?;
    Ok(end + 1)
}
