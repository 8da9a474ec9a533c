ghost use Rattle.std.specs.Prelude.{◌≡◌, ◌⊎◌, ◌↔◌, ◌≤◌, ℕ, IfOk, IsTrue, ◌+◌, ◌-◌};
ghost use Rattle.dd_model.specs.Allowed.{IsIn};
ghost use Rattle.dd_check.specs.Texts.{texts};
ghost use Rattle.dd_check.specs.Sets.{IsItem, AreItems, IsSetOf, low_of, high_of};
ghost use Rattle.dd_check.specs.Rows.{IsSetRow};
ghost use Rattle.dd_check.specs.Told.{AreEnds, IsItemWord, AreItemWords, IsSetWord, IsWhatTells, IsWhatTellsItems};

use crate::lines::parts;
use crate::raw_values::Item;
use crate::rows::read_number;
use dd_model::{Allowed, Memory};
use std::alloc::Global;

/// Returns the items after a word.
pub(crate) fn set_row(
    alloc: Global,
    words: &[&[u8]],
    key: &[u8],
) -> Result<Option<Vec<Item>>, Memory>
    ensures { IfOk result (λ told. IsWhatTellsItems (IsSetRow key.now) (texts words.now) told) }
{
    let [word, items] = words else {
        return Ok(None)
    };
    if *word != key {
        return Ok(None);
    }
    read_items(alloc, items)
}

/// Returns the items of a word, which have commas between them.
fn read_items(alloc: Global, word: &[u8]) -> Result<Option<Vec<Item>>, Memory>
    ensures { IfOk result (λ told. IsWhatTellsItems IsSetWord word.now told) }
{
    let words = parts(alloc, word, b',')?;
    items_of(alloc, &words)
}

/// Returns the items that some words are.
fn items_of(alloc: Global, words: &[&[u8]]) -> Result<Option<Vec<Item>>, Memory>
    ensures { IfOk result (λ told. IsWhatTellsItems AreItemWords (texts words.now) told) }
{
    let mut items = Vec::new(alloc);
    for word in words {
        match read_item(alloc, word)? {
            Some(item) => items.push(item)?,
            None => return Ok(None),
        }
    }
    Ok(Some(items))
}

/// Returns the item that a word is: one number, or two with a dash between them.
fn read_item(alloc: Global, word: &[u8]) -> Result<Option<Item>, Memory>
    ensures { IfOk result (λ told. IsWhatTells IsItemWord word.now told) }
{
    let ends = parts(alloc, word, b'-')?;
    Ok(item_of(&ends))
}

/// Returns the item that has one number, or two.
fn item_of(words: &[&[u8]]) -> Option<Item>
    ensures { IsWhatTells AreEnds (texts words.now) result }
{
    match words {
        [number] => Some(Item::One(read_number(number)?)),
        [low, high] => Some(Item::Span(read_number(low)?, read_number(high)?)),
        _ => None,
    }
}

/// Returns whether the items are in range, ascending and apart.
pub(crate) fn are_items(items: &[Item]) -> bool
    ensures { IsTrue result ↔ AreItems items.now }
{
    let mut next = 0;
    for item in items {
        if !is_item(*item) {
            return false;
        }
        if low_of(*item) < next {
            return false;
        }
        next = high_of(*item) + 2;
    }
    true
}

/// Returns whether an item is in range.
fn is_item(item: Item) -> bool
    ensures { IsTrue result ↔ IsItem item }
{
    match item {
        Item::One(number) => number >= 1 && number <= 216,
        Item::Span(low, high) => low >= 1 && low < high && high <= 216,
    }
}

/// Returns the least number of an item.
fn low_of(item: Item) -> u64
    ensures { result ≡ low_of item }
{
    match item {
        Item::One(number) => number,
        Item::Span(low, _) => low,
    }
}

/// Returns the greatest number of an item.
fn high_of(item: Item) -> u64
    ensures { result ≡ high_of item }
{
    match item {
        Item::One(number) => number,
        Item::Span(_, high) => high,
    }
}

/// Returns the set of the numbers of some items.
pub(crate) fn set_of(items: &[Item]) -> Allowed
    requires { AreItems items.now }
    ensures { IsSetOf items.now result }
{
    let mut set = Allowed::none();
    for item in items {
        add_range(&mut set, low_of(*item) as u32, high_of(*item) as u32);
    }
    set
}

/// Adds the numbers from `low` to `high` to a set.
fn add_range(set: &mut Allowed, low: u32, high: u32)
    requires { (1 ≤ low) × (low ≤ high) × (high ≤ 216) }
    ensures { (m : ℕ) → IsIn set.new m ↔ (IsIn set.old m ⊎ ((low ≤ m) × (m ≤ high))) }
{
    for number in low..high + 1 {
        set.add(number);
    }
}

/// Returns whether a row of numbers of a set begins at a number.
pub(crate) fn begins_run(set: &Allowed, number: u32) -> bool
    requires { 1 ≤ number }
    ensures { IsTrue result
        ↔ (IsIn set.now number × (IsIn set.now (number - 1) → ⊥)) }
{
    set.has(number) && !set.has(number - 1)
}

/// Returns the last number of the row of numbers of a set that begins at a number of it.
pub(crate) fn last_of_run(set: &Allowed, low: u32) -> u32
    requires { IsIn set.now low }
    ensures within { (low ≤ result) × (result ≤ 216) }
    ensures all { (m : ℕ) → low ≤ m → m ≤ result → IsIn set.now m }
    ensures last { IsIn set.now (result + 1) → ⊥ }
{
    let mut last = low;
    while set.has(last + 1) {
        last += 1;
    }
    last
}
