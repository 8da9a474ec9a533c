ghost use Rattle.std.specs.Prelude.{ℤ, pos, ◌≤ℤ◌};
ghost use Rattle.dd_model.specs.Symbol.{Symbol, IsTable};
ghost use Rattle.dd_model.specs.Connected.{Connected as AllReached};
ghost use Rattle.dd_cells.specs.Euler.{IsEuler};
ghost use Rattle.dd_cells.specs.Orientation.{IsOriented};
ghost use Rattle.dd_covers.specs.Parity.{IsEvenNumber};

use dd_cells::euler;
use dd_symbol::Connected;

/// The Euler number of a connected table of involutions is at most 2.
pub fn euler_numbers_are_at_most_2()
    ensures { (s : Symbol) (number : ℤ) → IsTable s → AllReached s → IsEuler s number
        → number ≤ℤ pos 2 }
{}

/// The Euler number of an oriented table of involutions is even.
pub fn oriented_symbols_have_even_euler_numbers()
    ensures { (s : Symbol) (number : ℤ) → IsTable s → IsOriented s → IsEuler s number
        → IsEvenNumber number }
{}

/// The Euler number of a connected symbol, which is at most 2. It takes no memory.
pub fn euler_law(s: &Connected) -> i64
    ensures euler { IsEuler s.now result }
    ensures law { result ≤ℤ pos 2 }
{
    let _symbol = s.symbol();
    euler(s)
}
