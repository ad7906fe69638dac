ghost use Rattle.std.specs.Prelude.{◌≡◌, true, false, IfOk, OnOk, IsErrOf, string_bytes};
ghost use Rattle.std.specs.Char.{is_ascii_hexdigit};
ghost use Rattle.std.specs.List.{list_all};
ghost use Rattle.percent_encoding.specs.Percent as percent;
ghost use Rattle.uss_route.specs.Ovns as spec;
ghost use Rattle.uss_route.specs.Ovns.{is_ovn_segment, segment_of};

use percent_encoding::{AsciiSet, NON_ALPHANUMERIC, ascii_set, percent_decode, percent_encode};
use std::alloc::{AllocError, Global};
use uss_intent::{IntentRefusal, Ovn};

/// The ASCII bytes that aren't written in a path as they are: all but letters, digits, `-`, `.`, `_` and `~`.
const ESCAPED: AsciiSet = ascii_set!(
    NON_ALPHANUMERIC
        .remove(b'-')
        .remove(b'.')
        .remove(b'_')
        .remove(b'~')
);

/// Whether each byte is a hexadecimal digit.
fn are_digits(bytes: &[u8]) -> bool
    ensures { result ≡ list_all is_ascii_hexdigit bytes.now }
{
    bytes.iter().all(|b| b.is_ascii_hexdigit())
}

/// Whether the bytes begin with two hexadecimal digits.
fn begins_with_digits(bytes: &[u8]) -> bool
    ensures { result ≡ spec.begins_with_digits bytes.now }
{
    2 <= bytes.len() && are_digits(&bytes[..2])
}

/// Whether two hexadecimal digits come after each `%`.
fn is_escaped(segment: &[u8]) -> bool
    ensures { result ≡ spec.is_escaped segment.now }
{
    let mut rest = segment;
    'looking: while let Some((first, behind)) = rest.split_first() {
        if *first == b'%' && !begins_with_digits(behind) {
            return false;
        }
        rest = behind;
    }
    true
}

/// The OVN that a parameter of a path stands for: `%` and two hexadecimal digits for that byte, each other byte for itself. It
/// is none, which is 130, where a `%` comes before anything else and where the bytes aren't an OVN.
pub fn ovn_of_segment(alloc: Global, segment: &[u8]) -> Result<Ovn, IntentRefusal>
    ensures value { IfOk result (λ ovn. ovn ≡ percent.percent_decode segment.now) }
    ensures ok { OnOk result (is_ovn_segment segment.now ≡ true) }
    ensures bad { IsErrOf result IntentRefusal.BadOvn → is_ovn_segment segment.now ≡ false }
    ensures name { ¬ IsErrOf result IntentRefusal.BadName }
    ensures base { ¬ IsErrOf result IntentRefusal.BadBase }
{
    if !is_escaped(segment) {
        return Err(IntentRefusal::BadOvn);
    }
    let mut bytes = Vec::new(alloc);
    percent_decode(segment).append_to(&mut bytes)?;
    Ovn::of(alloc, bytes.as_slice())
}

/// An OVN as it is written in a path: each byte other than a letter, a digit, `-`, `.`, `_` and `~` as `%` and two upper-case
/// hexadecimal digits.
pub fn segment_of_ovn(alloc: Global, ovn: &Ovn) -> Result<String, AllocError>
    ensures text { IfOk result (λ text. string_bytes text ≡ segment_of ovn.now) }
{
    let mut text = String::new(alloc);
    percent_encode(ovn.as_bytes(), ESCAPED).append_to(&mut text)?;
    Ok(text)
}
