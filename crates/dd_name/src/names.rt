ghost use Rattle.std.specs.Prelude.{◌≡◌, ◌++◌, ℕ, List, replicate, OnOk, OnErr};
ghost use Rattle.std.specs.List.{flat_map};
ghost use Rattle.dd_name.specs.Name.{order_text, orders_text, boundary_text, parts_text, name_text};
ghost use Rattle.dd_model.specs.Longer.{IsLonger};

use crate::orbifolds::Orbifold;
use crate::orders::Orders;
use dd_model::{Memory, put_bytes};
use itoa::Buffer;

/// Appends an order.
fn put_order(out: &mut Vec<u8>, order: u32) -> Result<(), Memory>
    ensures order { OnOk result (out.new.items ≡ out.old.items ++ order_text order) }
    ensures longer { IsLonger out.old.items out.new.items }
{
    let mut digits = Buffer::new();
    let digits = digits.format(order).as_bytes();
    if order <= 9 {
        return put_bytes(out, digits);
    }
    put_bytes(out, b"(")?;
    put_bytes(out, digits)?;
    put_bytes(out, b")")
}

/// Appends orders one after the other.
fn put_orders(out: &mut Vec<u8>, orders: &[u32]) -> Result<(), Memory>
    ensures orders { OnOk result (out.new.items ≡ out.old.items ++ orders_text orders.now) }
    ensures longer { IsLonger out.old.items out.new.items }
{
    for order in orders {
        put_order(out, *order)?;
    }
    Ok(())
}

/// Appends a star and the corners for each boundary.
fn put_boundaries(out: &mut Vec<u8>, boundaries: &[Orders]) -> Result<(), Memory>
    ensures boundaries { OnOk result (out.new.items ≡ out.old.items
        ++ flat_map boundary_text boundaries.now) }
    ensures longer { IsLonger out.old.items out.new.items }
{
    for boundary in boundaries {
        put_bytes(out, b"*")?;
        put_orders(out, boundary.as_slice())?;
    }
    Ok(())
}

/// Appends a sign `count` times.
fn put_signs(out: &mut Vec<u8>, sign: u8, count: u32) -> Result<(), Memory>
    ensures signs { OnOk result (out.new.items ≡ out.old.items ++ replicate count sign) }
    ensures longer { IsLonger out.old.items out.new.items }
{
    for _k in 0..count {
        out.push(sign)?;
    }
    Ok(())
}

/// Appends what is there, each part by its sign.
fn put_parts(out: &mut Vec<u8>, o: &Orbifold) -> Result<(), Memory>
    ensures parts { OnOk result (out.new.items ≡ out.old.items ++ parts_text o.now) }
    ensures longer { IsLonger out.old.items out.new.items }
{
    put_signs(out, b'o', o.handles)?;
    put_orders(out, o.cones.as_slice())?;
    put_boundaries(out, o.boundaries.as_slice())?;
    put_signs(out, b'x', o.crosscaps)
}

/// Appends the name, or 1 where the orbifold has no parts. If memory runs out, the text may be
/// longer.
fn put_name(out: &mut Vec<u8>, o: &Orbifold) -> Result<(), Memory>
    ensures name { OnOk result (out.new.items ≡ out.old.items ++ name_text o.now) }
    ensures longer { IsLonger out.old.items out.new.items }
{
    let length = out.len();
    put_parts(out, o)?;
    if out.len() == length {
        return put_bytes(out, b"1");
    }
    Ok(())
}

/// Appends the name of an orbifold. If memory runs out, the text is as before.
pub fn name(out: &mut Vec<u8>, o: &Orbifold) -> Result<(), Memory>
    ensures name { OnOk result (out.new.items ≡ out.old.items ++ name_text o.now) }
    ensures same { OnErr result (out.new.items ≡ out.old.items) }
{
    let length = out.len();
    let named = put_name(out, o);
    if named.is_err() {
        out.truncate(length);
    }
    named
}
