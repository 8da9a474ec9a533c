ghost use Rattle.std.specs.Prelude.{◌≡◌, ◌++◌, OnOk};
ghost use Rattle.dd_model.specs.Longer.{IsLonger};

use crate::memory::Memory;

/// Appends some bytes. At `Err` the old text stays in front.
pub fn put_bytes(out: &mut Vec<u8>, bytes: &[u8]) -> Result<(), Memory>
    ensures bytes { OnOk result (out.new.items ≡ out.old.items ++ bytes.now) }
    ensures longer { IsLonger out.old.items out.new.items }
{
    Ok(out.extend_from_slice(bytes)?)
}
