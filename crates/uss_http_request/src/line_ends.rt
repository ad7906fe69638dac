ghost use Rattle.std.specs.Prelude.{◌<◌, ◌≤◌, length};

/// Where the text of a line ends whose LF stands there.
fn text_end(bytes: &[u8], line_feed: usize) -> usize
    requires { line_feed < length bytes.now }
    ensures { result ≤ line_feed }
{
    if line_feed > 0 && bytes[line_feed - 1] == b'\r' {
        line_feed - 1
    } else {
        line_feed
    }
}

/// Whether an empty line ends with the LF there, after a line that isn't empty.
fn ends_fields(bytes: &[u8], line_feed: usize) -> bool
    requires { line_feed < length bytes.now }
{
    let empty = text_end(bytes, line_feed);
    if empty == 0 || bytes[empty - 1] != b'\n' {
        return false;
    }
    let text = text_end(bytes, empty - 1);
    text > 0 && bytes[text - 1] != b'\n'
}

/// Whether an empty line ends after the first `from` bytes, after a line that isn't empty. So it is at the end of the
/// fields of a head, and of trailers that have any. Empty lines before a head don't count.
pub fn fields_may_end(bytes: &[u8], from: usize) -> bool
    requires { from ≤ length bytes.now }
{
    for at in from..bytes.len() {
        if bytes[at] == b'\n' && ends_fields(bytes, at) {
            return true;
        }
    }
    false
}
