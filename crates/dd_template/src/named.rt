ghost use Rattle.std.specs.Prelude.{◌≡◌};
ghost use Rattle.dd_template.specs.Table.{table_of};
ghost use Rattle.dd_template.specs.Named.{dual, ambo, truncate, chamfer};

use crate::constants::{AMBO, CHAMFER, DUAL, TRUNCATE};

/// The constants are the tables of the definitions.
pub fn tables_have_names()
    ensures dual { table_of DUAL ≡ dual }
    ensures ambo { table_of AMBO ≡ ambo }
    ensures truncate { table_of TRUNCATE ≡ truncate }
    ensures chamfer { table_of CHAMFER ≡ chamfer }
{}
