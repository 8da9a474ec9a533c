ghost use Rattle.std.specs.Prelude.{◌≡◌, ◌++◌, ◌+◌, ◌*◌, ◌≤◌, codes, decimal, length, map, vec_capacity, vec_len, OnOk, All};
ghost use Rattle.dd_model.specs.Line.{spaced};
ghost use Rattle.dd_model.specs.Symbol.{item};
ghost use Rattle.dd_text.specs.Images.{IsWithin};

use dd_model::Memory;

/// Appends a degree in decimal, where there is room for three digits.
fn put_degree(out: &mut Vec<u8>, degree: u8)
    requires { vec_len out.old + 3 ≤ vec_capacity out.old }
    ensures degree { out.new.items ≡ out.old.items ++ decimal degree }
    ensures len { vec_len out.new ≤ vec_len out.old + 3 }
    ensures capacity { vec_capacity out.new ≡ vec_capacity out.old }
{
    if degree < 10 {
        out.push_reserved(b'0' + degree);
        return;
    }
    if degree < 100 {
        out.push_reserved(b'0' + degree / 10);
        out.push_reserved(b'0' + degree % 10);
        return;
    }
    out.push_reserved(b'0' + degree / 100);
    out.push_reserved(b'0' + degree / 10 % 10);
    out.push_reserved(b'0' + degree % 10);
}

/// Appends the degrees at some chambers, one for each chamber being listed, where there is room for
/// a space and three digits for each.
fn put_at(out: &mut Vec<u8>, degrees: &[u8], chambers: &[u32])
    requires within { All (IsWithin (length degrees.now)) chambers.now }
    requires room { vec_len out.old + 4 * length chambers.now ≤ vec_capacity out.old }
    ensures degrees { out.new.items ≡ out.old.items
        ++ spaced (map (item degrees.now) chambers.now) }
    ensures len { vec_len out.new ≤ vec_len out.old + 4 * length chambers.now }
    ensures capacity { vec_capacity out.new ≡ vec_capacity out.old }
{
    let [first, others @ ..] = chambers else {
        return;
    };
    put_degree(out, degrees[*first as usize - 1]);
    for chamber in others {
        out.push_reserved(b' ');
        put_degree(out, degrees[*chamber as usize - 1]);
    }
}

/// Appends the degrees of the tiles and of the vertices at their least chambers, and the line's
/// end. It asks for room for all of it once.
pub(crate) fn put_told(
    out: &mut Vec<u8>,
    m01: &[u8],
    tiles: &[u32],
    m12: &[u8],
    vertices: &[u32],
) -> Result<(), Memory>
    requires tiles { All (IsWithin (length m01.now)) tiles.now }
    requires vertices { All (IsWithin (length m12.now)) vertices.now }
    ensures degrees { OnOk result (out.new.items ≡ out.old.items
        ++ spaced (map (item m01.now) tiles.now) ++ codes ","
        ++ spaced (map (item m12.now) vertices.now) ++ codes ">\n") }
{
    out.reserve(4 * (tiles.len() + vertices.len()) + 3)?;
    put_at(out, m01, tiles);
    out.push_reserved(b',');
    put_at(out, m12, vertices);
    out.push_reserved(b'>');
    out.push_reserved(b'\n');
    Ok(())
}
