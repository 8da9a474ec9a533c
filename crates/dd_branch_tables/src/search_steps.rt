ghost use Rattle.std.specs.Prelude.{◌≡◌, ◌⊎◌, ◌↔◌, ◌<◌, [], length};
ghost use Rattle.std.specs.Bool.{OnTrue, OnFalse};
ghost use Rattle.dd_model.specs.Symbol.{Symbol as Tiling};
ghost use Rattle.dd_model.specs.Code.{IsBelow};
ghost use Rattle.dd_branch_tables.specs.Levels.{IsAt, IsBeyond, IsStillLeft, IsStillLeftAt, IsUnderState, first_at, first_of, weight};

use crate::level::Level;
use crate::levels::Levels;
use crate::prefix_search::PrefixSearch;

/// The levels of a search that begins where it stands: all under its prefix is left to be tried.
pub fn begin<T: PrefixSearch>(search: &T) -> Levels
    requires valid { T.laws.valid search.now }
    requires room { length (T.laws.prefix search.now) < T.laws.end (T.laws.size search.now) }
    ensures at { IsAt T.laws search.now result }
    ensures left { (s : Tiling) → IsUnderState T.laws search.now search.now s
        ↔ IsStillLeftAt T.laws search.now search.now result s }
    ensures first { first_at T.laws search.now result ≡ search.now }
{
    let mut levels = Levels::none();
    levels.push(Level {
        mark: search.mark(),
        left: search.candidates(),
    });
    levels
}

/// Moves from the last level to the next whole prefix under which something may be. Returns false
/// if nothing is left, and the search is then where it began. It takes no memory.
pub fn advance<T: PrefixSearch>(search: &mut T, levels: &mut Levels) -> bool
    requires valid { T.laws.valid search.old }
    requires at { IsAt T.laws search.old levels.old }
    ensures valid { T.laws.valid search.new }
    ensures request { T.laws.request search.new ≡ T.laws.request search.old }
    ensures size { T.laws.size search.new ≡ T.laws.size search.old }
    ensures whole { OnTrue result
        (length (T.laws.prefix search.new) ≡ T.laws.end (T.laws.size search.old)) }
    ensures beyond { OnTrue result (IsBeyond T.laws search.new levels.new) }
    ensures first { OnTrue result (first_of T.laws search.new levels.new
        ≡ first_at T.laws search.old levels.old) }
    ensures left { OnTrue result ((s : Tiling)
        → IsStillLeftAt T.laws search.old search.old levels.old s
        ↔ (IsUnderState T.laws search.old search.new s
        ⊎ IsStillLeft T.laws search.old search.new levels.new s)) }
    ensures order { OnTrue result ((s t : Tiling) → IsUnderState T.laws search.old search.new s
        → IsStillLeft T.laws search.old search.new levels.new t → IsBelow s t) }
    ensures lighter { OnTrue result (weight levels.new < weight levels.old) }
    ensures none { OnFalse result ((s : Tiling)
        → IsStillLeftAt T.laws search.old search.old levels.old s → ⊥) }
    ensures back { OnFalse result (search.new ≡ first_at T.laws search.old levels.old) }
    ensures empty { OnFalse result (levels.new ≡ []) }
{
    let Some(mut level) = levels.pop() else {
        return false;
    };
    loop {
        let Some(number) = level.left.take_first() else {
            let Some(before) = levels.pop() else {
                return false;
            };
            search.leave(before.mark);
            level = before;
            continue;
        };
        if search.enter(number) {
            let is_whole = search.is_whole();
            levels.push(level);
            if is_whole {
                return true;
            }
            level = Level {
                mark: search.mark(),
                left: search.candidates(),
            };
        }
    }
}

/// Goes back to the last level.
pub fn go_back<T: PrefixSearch>(search: &mut T, levels: &mut Levels)
    requires valid { T.laws.valid search.old }
    requires beyond { IsBeyond T.laws search.old levels.old }
    ensures valid { T.laws.valid search.new }
    ensures request { T.laws.request search.new ≡ T.laws.request search.old }
    ensures size { T.laws.size search.new ≡ T.laws.size search.old }
    ensures levels { levels.new ≡ levels.old }
    ensures at { IsAt T.laws search.new levels.old }
    ensures first { first_at T.laws search.new levels.old
        ≡ first_of T.laws search.old levels.old }
    ensures left { (s : Tiling) → IsStillLeft T.laws search.old search.old levels.old s
        ↔ IsStillLeftAt T.laws search.old search.new levels.old s }
{
    if let Some(level) = levels.pop() {
        search.leave(level.mark);
        levels.push(level);
    }
}
