ghost use Rattle.std.specs.Prelude.{◌≡◌, ◌↔◌, ℕ, IsTrue, IfOk, IsErrOf, OnOk, Some, None, Ok, List, length, nat_eq, ◌≤◌};
ghost use Rattle.std.specs.Cmp.{partial_equiv_from_equiv};
ghost use Rattle.std.specs.Cmp.Lexicographic.{pointwise, nat_list_eq_equiv};
ghost use Rattle.url.specs.Parser.{parse_url};
ghost use Rattle.uss_intent.specs.Tags.{tag_of};
ghost use Rattle.uss_intent.specs.Texts.{IsBase, is_plain_http, tagged_base};

use crate::IntentRefusal;
use crate::names::is_visible;
use std::alloc::{AllocError, Global};
use std::marker::Model;
use std::{fmt, str};
use url::{ParseError, Url};

/// A base URL (uss_base_url of the OpenAPI annex of ASTM F3548-21): at most 300 bytes of visible ASCII without a
/// slash at the end, an http URL with neither query nor fragment.
#[derive(Debug, Drop)]
pub struct Base {
    text: String,
}

impl Model for Base {
    ghost use Rattle.std.specs.Prelude.{List, ℕ, string_bytes};
    ghost use Rattle.uss_intent.specs.Texts.{IsBase};

    ghost Value = { List ℕ };

    ghost view = { λ a. string_bytes a.text };

    ghost invariant = { λ a. IsBase (string_bytes a.text) };
}

fn is_http(url: &Url) -> bool
    ensures { result ≡ is_plain_http (Ok url.now) }
{
    url.scheme() == "http" && url.query().is_none() && url.fragment().is_none()
}

// `Overflow` is out of memory, since no clause of `url` ties it to a length.
fn reads_as_http(alloc: Global, text: &str) -> Result<bool, AllocError>
    ensures { IfOk result (λ b. b ≡ is_plain_http (parse_url None text.now)) }
{
    match Url::parse(alloc, text) {
        Ok(url) => Ok(is_http(&url)),
        Err(ParseError::OutOfMemory | ParseError::Overflow) => Err(AllocError),
        Err(_) => Ok(false),
    }
}

impl Base {
    /// The base URL with this text.
    pub fn of(alloc: Global, bytes: &[u8]) -> Result<Base, IntentRefusal>
        ensures value { IfOk result (λ base. base ≡ bytes.now) }
        ensures ok { OnOk result (IsBase bytes.now) }
        ensures bad { IsErrOf result IntentRefusal.BadBase → ¬ IsBase bytes.now }
        ensures name { ¬ IsErrOf result IntentRefusal.BadName }
        ensures ovn { ¬ IsErrOf result IntentRefusal.BadOvn }
    {
        if bytes.len() > 300 || bytes.ends_with(b"/") || !is_visible(bytes) {
            return Err(IntentRefusal::BadBase);
        }
        let Ok(text) = str::from_utf8(bytes) else {
            return Err(IntentRefusal::BadBase);
        };
        if !reads_as_http(alloc, text)? {
            return Err(IntentRefusal::BadBase);
        }
        Ok(Base {
            text: String::from_str(alloc, text)?,
        })
    }

    /// The base URL of the attempt with this tag: this one with `/a/` and the tag in decimal. For a configured
    /// base URL, which has at most 256 bytes. Only memory can be wanting: what is made is a base URL.
    pub fn tagged(&self, alloc: Global, tag: u64) -> Result<Base, AllocError>
        requires { length self.now ≤ 256 }
        ensures value { IfOk result (λ base. base ≡ tagged_base self.now tag) }
        ensures tag { 1 ≤ tag → IfOk result (λ base. tag_of base ≡ Some tag) }
    {
        let mut text = String::from_str(alloc, self.text.as_str())?;
        text.push_str("/a/")?;
        write!(text, "{tag}")?;
        Ok(Base { text })
    }

    /// The URL's bytes.
    pub fn as_bytes(&self) -> &[u8]
        ensures value { result.now ≡ self.now }
        ensures valid { IsBase self.now }
    {
        self.text.as_bytes()
    }

    /// The URL as text.
    pub fn as_str(&self) -> &str
        ensures value { result.now ≡ self.now }
        ensures valid { IsBase self.now }
    {
        self.text.as_str()
    }
}

impl Clone for Base {
    ghost is_clone = { λ base copy. copy ≡ base };

    fn clone(&self) -> Result<Base, AllocError> {
        Ok(Base {
            text: self.text.clone()?,
        })
    }
}

impl PartialEq for Base {
    ghost eq = { pointwise nat_eq };

    ghost laws = { partial_equiv_from_equiv nat_list_eq_equiv };

    /// Whether both have the same bytes.
    fn eq(&self, other: &Base) -> bool
        ensures value { result ≡ pointwise nat_eq self.now other.now }
        ensures same { IsTrue result ↔ (self.now ≡ other.now) }
    {
        self.text.as_str() == other.text.as_str()
    }
}

impl Eq for Base {
    ghost laws = { nat_list_eq_equiv };
}

impl fmt::Display for Base {
    ghost output = { λ base. Some base };

    fn fmt<W: fmt::Write>(&self, f: &mut fmt::Formatter<W>) -> fmt::Result {
        f.write_str(self.as_str())
    }
}
