//! The values of settings and arguments.
ghost use Rattle.std.specs.Prelude.{◌≡◌, ℕ, Option, Bool, List, IfSome, IfNone, IfOk};
ghost use Rattle.std.specs.List.{AllByRecursion};
ghost use Rattle.dd_words.specs.Laying.{texts};
ghost use Rattle.dd_words.specs.Values.{IsName};

use crate::fault::WordsFault;
use crate::names::{Name, Names};
use crate::sets::read_set;
use crate::settings::{Given, Setting};
use crate::values::{is_name, read_number_in};
use dd_model::{Allowed, Frame};
use std::alloc::Global;
use std::marker::Model;

/// The least number of edges of tiles, and the least degree of vertices, where none is given.
const LEAST: u32 = 3;

/// The settings of a command, each given at most once.
#[derive(Drop)]
pub(crate) struct Settings<'a> {
    pub(crate) list: Vec<Given<'a>>,
}

impl<'a> Model for Settings<'a> {
    ghost use Rattle.std.specs.Prelude.{List, map};
    ghost use Rattle.dd_words.specs.Given.{Given as SettingAndValue, AreSingle};
    ghost use Rattle.dd_words.specs.Settings.{given_of};

    ghost Value = { List SettingAndValue };

    ghost view = { λ a. map given_of a.list.items };

    ghost invariant = { λ a. AreSingle (map given_of a.list.items) };
}

impl<'a> Settings<'a> {
    ghost use Rattle.dd_model.specs.declared.allowed.Allowed.{Allowed};
    ghost use Rattle.dd_words.specs.Given.{AreSingle, Has, Lacks};
    ghost use Rattle.dd_words.specs.GivenValues.{IsNumberOr, IsNumberIfGiven, IsNameIfGiven, IsFlagIfGiven, IsSet, IsFramed};

    /// Returns the value of a setting, or None if it is not given.
    fn value_of(&self, setting: Setting) -> Option<&'a str>
        ensures some { IfSome result (λ value. Has self.now setting value.now) }
        ensures none { IfNone result (Lacks self.now setting) }
        ensures single { AreSingle self.now }
    {
        for given in &self.list {
            if given.setting.is(setting) {
                return Some(given.value);
            }
        }
        None
    }

    /// Returns the number that a setting has, or `default` if it is not given. Returns None if the
    /// value is not a number from `low` to `high`.
    pub(crate) fn number_or(
        &self,
        setting: Setting,
        low: u32,
        high: u32,
        default: u32,
    ) -> Option<u32>
        ensures some { IfSome result (λ n. IsNumberOr self.now setting low high default n) }
        ensures none { IfNone result
            ((n : ℕ) → IsNumberOr self.now setting low high default n → ⊥) }
    {
        match self.value_of(setting) {
            Some(word) => read_number_in(word, low, high),
            None => Some(default),
        }
    }

    /// Returns the number that a setting has, if it is given. Returns None if the value is not a
    /// number from `low` to `high`.
    pub(crate) fn number_if_given(
        &self,
        setting: Setting,
        low: u32,
        high: u32,
    ) -> Option<Option<u32>>
        ensures some { IfSome result (λ n. IsNumberIfGiven self.now setting low high n) }
        ensures none { IfNone result
            ((n : Option ℕ) → IsNumberIfGiven self.now setting low high n → ⊥) }
    {
        let Some(word) = self.value_of(setting) else {
            return Some(None);
        };
        let number = read_number_in(word, low, high)?;
        Some(Some(number))
    }

    /// Returns whether a flag is given, or None if it has a value.
    pub(crate) fn flag_if_given(&self, setting: Setting) -> Option<bool>
        ensures some { IfSome result (λ flag. IsFlagIfGiven self.now setting flag) }
        ensures none { IfNone result ((flag : Bool) → IsFlagIfGiven self.now setting flag → ⊥) }
    {
        let Some(word) = self.value_of(setting) else {
            return Some(false);
        };
        if !word.is_empty() {
            return None;
        }
        Some(true)
    }

    /// Returns the numbers that `set` lists, or all numbers from `least` on if it is not given. The
    /// default of `least` is 3. Returns None if `set` is no list of numbers, `least` is not from 1
    /// to 36, or both are given.
    pub(crate) fn set_of(&self, set: Setting, least: Setting) -> Option<Allowed>
        ensures some { IfSome result (λ a. IsSet self.now set least a) }
        ensures none { IfNone result ((a : Allowed) → IsSet self.now set least a → ⊥) }
    {
        match self.value_of(set) {
            Some(word) => {
                if self.value_of(least).is_some() {
                    return None;
                }
                read_set(word)
            }
            None => {
                let first = self.number_or(least, 1, 36, LEAST)?;
                Some(Allowed::least(first))
            }
        }
    }

    /// Returns the shape of a cell, or None if the setting has another word. A shape that is None
    /// is the tiling's own.
    pub(crate) fn frame(&self) -> Option<Option<Frame>>
        ensures some { IfSome result (λ frame. IsFramed self.now frame) }
        ensures none { IfNone result ((frame : Option Frame) → IsFramed self.now frame → ⊥) }
    {
        match self.value_of(Setting::Cell) {
            Some("square") => Some(Some(Frame::Square)),
            Some("hex") => Some(Some(Frame::Hex)),
            Some("own") => Some(None),
            Some(_) => None,
            None => Some(Some(Frame::Square)),
        }
    }

    /// Returns the name that a setting has, if it is given. Fails with NotTaken if the value is no
    /// name.
    pub(crate) fn name_if_given(
        &self,
        alloc: Global,
        setting: Setting,
    ) -> Result<Option<Name>, WordsFault>
        ensures given { IfOk result (λ name. IsNameIfGiven self.now setting name) }
        ensures not_taken { result ≡ Err WordsFault.NotTaken → (name : Option (List ℕ))
            → IsNameIfGiven self.now setting name → ⊥ }
        ensures single { AreSingle self.now }
    {
        let Some(word) = self.value_of(setting) else {
            return Ok(None);
        };
        let name = read_name(alloc, word)?;
        Ok(Some(name))
    }
}

/// The name of a file or of a checkpoint.
pub(crate) fn read_name(alloc: Global, word: &str) -> Result<Name, WordsFault>
    ensures same { IfOk result (λ name. word.now ≡ name) }
    ensures name { IfOk result IsName }
    ensures not_taken { result ≡ Err WordsFault.NotTaken → IsName word.now → ⊥ }
{
    if !is_name(word) {
        return Err(WordsFault::NotTaken);
    }
    let name = Name::new(alloc, word)?;
    Ok(name)
}

/// The names of files.
pub(crate) fn read_names(alloc: Global, words: &[&str]) -> Result<Names, WordsFault>
    ensures same { IfOk result (λ names. texts words.now ≡ names) }
    ensures names { IfOk result (AllByRecursion IsName) }
    ensures not_taken { result ≡ Err WordsFault.NotTaken
        → AllByRecursion IsName (texts words.now) → ⊥ }
{
    let mut names = Vec::new(alloc);
    for word in words {
        names.push(read_name(alloc, word)?)?;
    }
    Ok(Names::new(names))
}
