ghost use Rattle.std.specs.Prelude.{◌≡◌, ◌↔◌, false, IsTrue};
ghost use Rattle.std.specs.List.{list_all};
ghost use Rattle.httparse.specs.Grammar.{is_uri_byte, EndsInTarget};
ghost use Rattle.uss_http_request.specs.Target as spec;
ghost use Rattle.uss_http_request.specs.Target.{at_start};

use httparse::{is_method_token, is_uri_token};

fn all_uri(bytes: &[u8]) -> bool
    ensures { result ≡ list_all is_uri_byte bytes.now }
{
    bytes.iter().all(|&b| is_uri_token(b))
}

fn in_method(bytes: &[u8]) -> bool
    ensures { result ≡ spec.in_method false bytes.now }
{
    let mut some = false;
    for at in 0..bytes.len() {
        let b = bytes[at];
        if b == b' ' {
            return some && all_uri(&bytes[at + 1..]);
        }
        if !is_method_token(b) {
            return false;
        }
        some = true;
    }
    false
}

fn tests(bytes: &[u8]) -> bool
    ensures { result ≡ at_start bytes.now }
{
    let mut rest = bytes;
    'blank: while rest.len() >= 2 {
        if rest[0] == b'\n' {
            rest = &rest[1..];
        } else if rest[0] == b'\r' && rest[1] == b'\n' {
            rest = &rest[2..];
        } else {
            return in_method(rest);
        }
    }
    false
}

/// Whether the bytes end inside the target of a request.
pub fn ends_in_target(bytes: &[u8]) -> bool
    ensures { IsTrue result ↔ EndsInTarget bytes.now }
{
    tests(bytes)
}
