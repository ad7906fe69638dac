ghost use Rattle.std.specs.Prelude.{◌≡◌, ◌-◌, ℕ, length, ◌≤◌, slice_index, IfSome, Some};
ghost use Rattle.std.specs.Char.{is_ascii_digit};
ghost use Rattle.uss_intent.specs.Tags.{HasTag, number_of_digits, digits_at_end, tag_of};

use crate::Base;
use std::str;

fn number_of_text(text: &str) -> Option<u64>
    requires first { 49 ≤ slice_index text.now 0 }
    requires last { slice_index text.now 0 ≤ 57 }
    ensures { result ≡ number_of_digits text.now }
{
    text.parse::<u64>().ok()
}

#[tactic(auto, using(crate::proofs::TagLemmas::too_small, crate::proofs::TagLemmas::too_large))]
fn number_of_digits(digits: &[u8]) -> Option<u64>
    ensures { result ≡ number_of_digits digits.now }
{
    let Some(b'1'..=b'9') = digits.first() else {
        return None;
    };
    match str::from_utf8(digits) {
        Ok(text) => number_of_text(text),
        Err(_) => None,
    }
}

#[tactic(auto, using(crate::proofs::TagLemmas::suffix_is), unfolding(crate::specs::Tags::digits_at_end))]
fn digits_at_end(text: &[u8]) -> usize
    ensures value { result ≡ digits_at_end text.now }
    ensures within { result ≤ length text.now }
{
    text.iter().rev().take_while(|b| b.is_ascii_digit()).count()
}

#[tactic(auto, unfolding(crate::specs::Tags::tag_of))]
fn tag_at_end(text: &[u8]) -> Option<u64>
    ensures { result ≡ tag_of text.now }
{
    let (front, digits) = text.split_at(text.len() - digits_at_end(text));
    if front.ends_with(b"/a/") {
        number_of_digits(digits)
    } else {
        None
    }
}

/// The tag of an attempt's base URL, which ends in `/a/` and the tag in decimal; none where the base has no such
/// end. Takes no memory.
pub fn tag_of(base: &Base) -> Option<u64>
    ensures value { result ≡ tag_of base.now }
    ensures found { IfSome result (λ tag. HasTag base.now tag) }
    ensures every { (tag : ℕ) → HasTag base.now tag → result ≡ Some tag }
{
    tag_at_end(base.as_bytes())
}
