ghost use Rattle.std.specs.Prelude.{◌≡◌, ◌↔◌, ◌-◌, ◌<◌, ◌≤◌, length, slice_set, IfOk, IfErr, IsTrue};
ghost use Rattle.dd_model.specs.Spelling.{values};
ghost use Rattle.dd_text.specs.Texts.{told_of};
ghost use Rattle.dd_text.specs.ToldImages.{IsFree};
ghost use Rattle.dd_text.specs.ListFaults.{IsImagesFault};
ghost use Rattle.dd_text.specs.Images.{IsNextUnknown, IsToldBy};

use crate::faults::{Fault, Why};
use crate::lists::NumberList;
use std::alloc::Global;

/// The first chamber from `chamber` on without an image, or one more than the last.
fn next_unknown(images: &[u32], chamber: usize) -> usize
    requires from { 1 ≤ chamber }
    requires small { length images.now ≤ 1024 }
    ensures { IsNextUnknown images.now chamber result }
{
    let mut first = chamber;
    while first <= images.len() && images[first - 1] != 0 {
        first += 1;
    }
    first
}

/// Returns whether a number is a chamber without an image.
fn is_free(images: &[u32], number: u32) -> bool
    ensures { IsTrue result ↔ IsFree images.now number }
{
    let place = number as usize;
    if place == 0 || place > images.len() {
        return false;
    }
    images[place - 1] == 0
}

/// Returns the images of an involution of `size` chambers, from a list that has each pair of
/// chambers once.
pub(crate) fn images(alloc: Global, size: u32, list: &NumberList) -> Result<Vec<u32>, Fault>
    requires { size ≤ 1024 }
    ensures ok { IfOk result (λ images. IsToldBy size (values (told_of list.now)) images.items) }
    ensures why { IfErr result (λ fault. IsImagesFault size (told_of list.now) fault.why fault.at) }
{
    let mut images = vec![in alloc; 0u32; size as usize]?;
    let mut known = 1;
    for number in &list.numbers {
        let chamber = next_unknown(&images, known);
        if chamber > images.len() {
            return Err(Fault {
                at: number.at,
                why: Why::ListLong,
            });
        }
        if !is_free(&images, number.value) {
            return Err(Fault {
                at: number.at,
                why: Why::Image,
            });
        }
        images[chamber - 1] = number.value;
        images[number.value as usize - 1] = chamber as u32;
        known = chamber;
    }
    if next_unknown(&images, known) <= images.len() {
        return Err(Fault {
            at: list.end,
            why: Why::ListShort,
        });
    }
    Ok(images)
}
