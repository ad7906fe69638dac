ghost use Rattle.std.specs.Prelude.{◌≡◌, ◌+◌, ◌≤◌, ℕ, true, false, length, take, drop, codes, bytes_eq, nat_lt, ◌&&◌, MatchOption};
ghost use Rattle.uss_route.specs.Routes as spec;
ghost use Rattle.uss_route.specs.Routes.{first_segment, behind_segment, are_parameters, fits, first_of, second_of, tag_of};

use crate::rows::RouteRow;

/// How many bytes stand before the first such byte.
fn length_before(bytes: &[u8], separator: u8) -> usize
    ensures within { result ≤ length bytes.now }
    ensures before { take result bytes.now ≡ spec.before separator bytes.now }
{
    let mut count = 0;
    'counting: while count < bytes.len() && bytes[count] != separator {
        count += 1;
    }
    count
}

/// The bytes before the first such byte, or all.
pub(crate) fn before(bytes: &[u8], separator: u8) -> &[u8]
    ensures { result.now ≡ spec.before separator bytes.now }
{
    &bytes[..length_before(bytes, separator)]
}

/// A slash and the segment after it at the beginning, and what comes after them.
fn split_segment(bytes: &[u8]) -> Option<(&[u8], &[u8])>
    ensures { MatchOption result ((bytes_eq (take 1 bytes.now) (codes "/") && nat_lt 0 (length (first_segment bytes.now))) ≡ false) (λ parts. ((bytes_eq (take 1 bytes.now) (codes "/") && nat_lt 0 (length (first_segment bytes.now))) ≡ true) × (parts.0.now ≡ first_segment bytes.now) × (parts.1.now ≡ behind_segment bytes.now)) }
{
    let rest = match bytes.strip_prefix(b"/") {
        Some(rest) => rest,
        None => return None,
    };
    let count = length_before(rest, b'/');
    if count == 0 {
        return None;
    }
    Some((&rest[..count], &rest[count..]))
}

/// The one parameter that the bytes are.
fn one_parameter(bytes: &[u8]) -> Option<&[u8]>
    ensures { MatchOption result (are_parameters 1 bytes.now ≡ false) (λ first. (are_parameters 1 bytes.now ≡ true) × (first.now ≡ first_segment bytes.now)) }
{
    match split_segment(bytes) {
        Some((first, behind)) if behind.is_empty() => Some(first),
        _ => None,
    }
}

/// The two parameters that the bytes are.
fn two_parameters(bytes: &[u8]) -> Option<(&[u8], &[u8])>
    ensures { MatchOption result (are_parameters 2 bytes.now ≡ false) (λ parts. (are_parameters 2 bytes.now ≡ true) × (parts.0.now ≡ first_segment bytes.now) × (parts.1.now ≡ first_segment (behind_segment bytes.now))) }
{
    match split_segment(bytes) {
        Some((first, behind)) => match one_parameter(behind) {
            Some(second) => Some((first, second)),
            None => None,
        },
        None => None,
    }
}

/// The parameters of a path of this row, empty where there is none.
pub(crate) fn parameters<'p>(row: RouteRow, path: &'p [u8]) -> Option<(&'p [u8], &'p [u8])>
    ensures { MatchOption result (fits row path.now ≡ false) (λ parts. (fits row path.now ≡ true) × (parts.0.now ≡ first_of row path.now) × (parts.1.now ≡ second_of row path.now)) }
{
    let rest = match path.strip_prefix(row.text().as_bytes()) {
        Some(rest) => rest,
        None => return None,
    };
    match row.parameters() {
        0 => {
            if rest.is_empty() {
                Some((&[], &[]))
            } else {
                None
            }
        }
        1 => match one_parameter(rest) {
            Some(first) => Some((first, &[])),
            None => None,
        },
        _ => two_parameters(rest),
    }
}

/// The tag after `/a/`, and nothing where there is none.
fn tag(path: &[u8]) -> &[u8]
    ensures value { result.now ≡ tag_of path.now }
    ensures within { nat_lt 0 (length result.now) ≡ true → 3 + length result.now ≤ length path.now }
{
    match path.strip_prefix(b"/a/") {
        Some(rest) => before(rest, b'/'),
        None => &[],
    }
}

/// The path without `/a/` and the tag, where it has one.
pub(crate) fn untagged(path: &[u8]) -> &[u8]
    ensures { result.now ≡ spec.untagged path.now }
{
    let tag = tag(path);
    if tag.is_empty() {
        path
    } else {
        &path[3 + tag.len()..]
    }
}
