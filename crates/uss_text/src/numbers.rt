ghost use Rattle.std.specs.Prelude.{◌≡◌, ◌<◌, ◌^◌, ℕ, ℤ, Some, IfSome, IsTrue};
ghost use Rattle.std.specs.Fmt.{decimal, signed_decimal};
ghost use Rattle.std.specs.List.{list_all};
ghost use Rattle.std.specs.Char.{is_ascii_digit};
ghost use Rattle.uss_text.specs.Numbers as spec;
ghost use Rattle.uss_text.specs.Reading.{natural_below, integer_within, is_signed_64};

fn are_digits(word: &[u8]) -> bool
    ensures { result ≡ list_all is_ascii_digit word.now }
{
    word.iter().all(|byte| byte.is_ascii_digit())
}

/// Whether the word is digits, of which the first isn't 0 where there are several.
fn is_natural(word: &[u8]) -> bool
    ensures { result ≡ spec.is_natural word.now }
{
    if word.is_empty() {
        return false;
    }
    if word.len() == 1 {
        return are_digits(word);
    }
    if word[0] == b'0' {
        return false;
    }
    are_digits(word)
}

fn parsed_natural(word: &[u8]) -> Option<u64>
    ensures { result ≡ natural_below (2 ^ 64) (spec.natural_of word.now) }
{
    if !is_natural(word) {
        return None;
    }
    match str::from_utf8(word) {
        Ok(text) => text.parse::<u64>().ok(),
        Err(_) => None,
    }
}

/// The number whose decimal text the word is, without a sign or a leading zero. For the words of scripts and of
/// the command line.
pub fn natural(word: &[u8]) -> Option<u64>
    ensures value { result ≡ natural_below (2 ^ 64) (spec.natural_of word.now) }
    ensures found { IfSome result (λ n. word.now ≡ decimal n) }
    ensures every { (n : ℕ) → n < 2 ^ 64 → word.now ≡ decimal n → result ≡ Some n }
{
    parsed_natural(word)
}

/// The word after a `-`, if there is one.
fn without_minus(word: &[u8]) -> &[u8]
    ensures { result.now ≡ spec.without_minus word.now }
{
    match word {
        [b'-', digits @ ..] => digits,
        _ => word,
    }
}

/// Whether the word is a number, with or without a leading `-`.
fn is_integer(word: &[u8]) -> bool
    ensures { result ≡ spec.is_integer word.now }
{
    if !is_natural(without_minus(word)) {
        return false;
    }
    word != b"-0".as_slice()
}

fn parsed_integer(word: &[u8]) -> Option<i64>
    ensures { result ≡ integer_within (spec.integer_of word.now) }
{
    if !is_integer(word) {
        return None;
    }
    match str::from_utf8(word) {
        Ok(text) => text.parse::<i64>().ok(),
        Err(_) => None,
    }
}

/// The number whose decimal text the word is, with `-` before one below 0. For the words of scripts.
pub fn integer(word: &[u8]) -> Option<i64>
    ensures value { result ≡ integer_within (spec.integer_of word.now) }
    ensures found { IfSome result (λ z. word.now ≡ signed_decimal z) }
    ensures every { (z : ℤ) → IsTrue (is_signed_64 z) → word.now ≡ signed_decimal z → result ≡ Some z }
{
    parsed_integer(word)
}
