ghost use Rattle.std.specs.Prelude.{◌≡◌, ◌⊎◌, ◌↔◌, ◌≤◌, ◌<◌, ℕ, true, false, IfSome, IfNone};
ghost use Rattle.dd_model.specs.Allowed.{IsIn};
ghost use Rattle.dd_words.specs.Parted.{IsParted, Avoids};
ghost use Rattle.dd_words.specs.Values.{AreBounds, IsItem, AsksForNumbers, IsAdded, IsSetWord};

use crate::values::read_number;
use dd_model::Allowed;

/// The greatest number of a set.
const GREATEST: u64 = 216;

/// The set of a word of items with commas between them.
pub(crate) fn read_set(word: &str) -> Option<Allowed>
    ensures some { IfSome result (λ a. IsSetWord word.now a) }
    ensures none { IfNone result ((a : Allowed) → IsSetWord word.now a → ⊥) }
{
    let mut set = Allowed::none();
    let mut rest = word;
    while let Some((item, after)) = parted(rest, ',') {
        if !add_item(&mut set, item) {
            return None;
        }
        rest = after;
    }
    if !add_item(&mut set, rest) {
        return None;
    }
    Some(set)
}

/// The numbers of an item join the set, where the word is one.
fn add_item(set: &mut Allowed, word: &str) -> bool
    ensures added { result ≡ true → IsAdded word.now set.old set.new }
    ensures not_item { result ≡ false → AsksForNumbers word.now → ⊥ }
{
    let Some((low, high)) = read_item(word) else {
        return false;
    };
    add_range(set, low, high);
    true
}

/// The numbers from low to high join the set.
fn add_range(set: &mut Allowed, low: u32, high: u32)
    requires { (1 ≤ low) × (low ≤ high) × (high ≤ 216) }
    ensures { (m : ℕ) → IsIn set.new m ↔ (IsIn set.old m ⊎ ((low ≤ m) × (m ≤ high))) }
{
    for number in low..high + 1 {
        set.add(number);
    }
}

/// The least and the greatest number of an item.
fn read_item(word: &str) -> Option<(u32, u32)>
    ensures some { IfSome result (λ item. IsItem item.0 item.1 word.now) }
    ensures none { IfNone result (AsksForNumbers word.now → ⊥) }
{
    let (low, high) = read_bounds(word)?;
    if low < 1 {
        return None;
    }
    if low > high {
        return None;
    }
    if high > GREATEST {
        return None;
    }
    Some((low as u32, high as u32))
}

/// One number twice, or two numbers with a dash between them.
fn read_bounds(word: &str) -> Option<(u64, u64)>
    ensures some { IfSome result (λ bounds. AreBounds bounds.0 bounds.1 word.now) }
    ensures none { IfNone result ((low high : ℕ) → AreBounds low high word.now → ⊥) }
{
    match parted(word, '-') {
        Some((from, to)) => {
            let low = read_number(from)?;
            let high = read_number(to)?;
            Some((low, high))
        }
        None => {
            let number = read_number(word)?;
            Some((number, number))
        }
    }
}

/// What stands before and after the first separator, and None where there is none.
fn parted(text: &str, separator: char) -> Option<(&str, &str)>
    requires { separator < 128 }
    ensures some { IfSome result (λ parts. IsParted separator text.now parts.0.now parts.1.now) }
    ensures none { IfNone result (Avoids separator text.now) }
{
    text.split_once(separator)
}
