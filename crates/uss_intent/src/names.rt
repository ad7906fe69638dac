ghost use Rattle.std.specs.Prelude.{◌≡◌, ◌↔◌, ℕ, IsTrue, IfOk, IsErrOf, OnOk, Some, List, length, nat_eq};
ghost use Rattle.std.specs.List.{list_all};
ghost use Rattle.std.specs.Cmp.{partial_equiv_from_equiv};
ghost use Rattle.std.specs.Cmp.Lexicographic.{pointwise, nat_list_eq_equiv};
ghost use Rattle.uss_intent.specs.Texts.{IsName, IsOvn, is_name, is_ovn, is_name_byte, is_visible};

use crate::IntentRefusal;
use std::alloc::{AllocError, Global};
use std::marker::Model;
use std::{fmt, str};

/// The name of a client of the discovery service: 1 to 64 letters, digits, hyphens, points and underscores.
#[derive(Debug, Drop)]
pub struct Name {
    text: String,
}

impl Model for Name {
    ghost use Rattle.std.specs.Prelude.{List, ℕ, string_bytes};
    ghost use Rattle.uss_intent.specs.Texts.{IsName};

    ghost Value = { List ℕ };

    ghost view = { λ a. string_bytes a.text };

    ghost invariant = { λ a. IsName (string_bytes a.text) };
}

/// An opaque version number (OVN), which the discovery service gives to each landing: 16 to 128 bytes of visible
/// ASCII.
#[derive(Debug, Drop)]
pub struct Ovn {
    text: String,
}

impl Model for Ovn {
    ghost use Rattle.std.specs.Prelude.{List, ℕ, string_bytes};
    ghost use Rattle.uss_intent.specs.Texts.{IsOvn};

    ghost Value = { List ℕ };

    ghost view = { λ a. string_bytes a.text };

    ghost invariant = { λ a. IsOvn (string_bytes a.text) };
}

fn is_name_byte(b: u8) -> bool
    ensures { result ≡ is_name_byte b }
{
    b.is_ascii_alphanumeric() || b == b'-' || b == b'.' || b == b'_'
}

fn are_name_bytes(bytes: &[u8]) -> bool
    ensures { result ≡ list_all is_name_byte bytes.now }
{
    bytes.iter().all(|b| is_name_byte(*b))
}

fn is_name(bytes: &[u8]) -> bool
    ensures { result ≡ is_name bytes.now }
{
    1 <= bytes.len() && bytes.len() <= 64 && are_name_bytes(bytes)
}

/// Whether each byte is visible ASCII.
pub(crate) fn is_visible(bytes: &[u8]) -> bool
    ensures { result ≡ list_all is_visible bytes.now }
{
    bytes.iter().all(|b| 33 <= *b && *b <= 126)
}

fn is_ovn(bytes: &[u8]) -> bool
    ensures { result ≡ is_ovn bytes.now }
{
    16 <= bytes.len() && bytes.len() <= 128 && is_visible(bytes)
}

impl Name {
    /// The name with these bytes.
    pub fn of(alloc: Global, bytes: &[u8]) -> Result<Name, IntentRefusal>
        ensures value { IfOk result (λ name. name ≡ bytes.now) }
        ensures ok { OnOk result (IsName bytes.now) }
        ensures bad { IsErrOf result IntentRefusal.BadName ↔ ¬ IsName bytes.now }
        ensures base { ¬ IsErrOf result IntentRefusal.BadBase }
        ensures ovn { ¬ IsErrOf result IntentRefusal.BadOvn }
    {
        if !is_name(bytes) {
            return Err(IntentRefusal::BadName);
        }
        match str::from_utf8(bytes) {
            Ok(text) => Ok(Name {
                text: String::from_str(alloc, text)?,
            }),
            Err(_) => Err(IntentRefusal::BadName),
        }
    }

    /// The name's bytes.
    pub fn as_bytes(&self) -> &[u8]
        ensures value { result.now ≡ self.now }
        ensures valid { IsName self.now }
    {
        self.text.as_bytes()
    }

    /// The name as text.
    pub fn as_str(&self) -> &str
        ensures value { result.now ≡ self.now }
        ensures valid { IsName self.now }
    {
        self.text.as_str()
    }
}

impl Clone for Name {
    ghost is_clone = { λ name copy. copy ≡ name };

    fn clone(&self) -> Result<Name, AllocError> {
        Ok(Name {
            text: self.text.clone()?,
        })
    }
}

impl PartialEq for Name {
    ghost eq = { pointwise nat_eq };

    ghost laws = { partial_equiv_from_equiv nat_list_eq_equiv };

    /// Whether both have the same bytes.
    fn eq(&self, other: &Name) -> bool
        ensures value { result ≡ pointwise nat_eq self.now other.now }
        ensures same { IsTrue result ↔ (self.now ≡ other.now) }
    {
        self.text.as_str() == other.text.as_str()
    }
}

impl Eq for Name {
    ghost laws = { nat_list_eq_equiv };
}

impl fmt::Display for Name {
    ghost output = { λ name. Some name };

    fn fmt<W: fmt::Write>(&self, f: &mut fmt::Formatter<W>) -> fmt::Result {
        f.write_str(self.as_str())
    }
}

impl Ovn {
    /// The OVN with these bytes.
    pub fn of(alloc: Global, bytes: &[u8]) -> Result<Ovn, IntentRefusal>
        ensures value { IfOk result (λ ovn. ovn ≡ bytes.now) }
        ensures ok { OnOk result (IsOvn bytes.now) }
        ensures bad { IsErrOf result IntentRefusal.BadOvn ↔ ¬ IsOvn bytes.now }
        ensures name { ¬ IsErrOf result IntentRefusal.BadName }
        ensures base { ¬ IsErrOf result IntentRefusal.BadBase }
    {
        if !is_ovn(bytes) {
            return Err(IntentRefusal::BadOvn);
        }
        match str::from_utf8(bytes) {
            Ok(text) => Ok(Ovn {
                text: String::from_str(alloc, text)?,
            }),
            Err(_) => Err(IntentRefusal::BadOvn),
        }
    }

    /// The OVN's bytes.
    pub fn as_bytes(&self) -> &[u8]
        ensures value { result.now ≡ self.now }
        ensures valid { IsOvn self.now }
    {
        self.text.as_bytes()
    }

    /// The OVN as text.
    pub fn as_str(&self) -> &str
        ensures value { result.now ≡ self.now }
        ensures valid { IsOvn self.now }
    {
        self.text.as_str()
    }
}

impl Clone for Ovn {
    ghost is_clone = { λ ovn copy. copy ≡ ovn };

    fn clone(&self) -> Result<Ovn, AllocError> {
        Ok(Ovn {
            text: self.text.clone()?,
        })
    }
}

impl PartialEq for Ovn {
    ghost eq = { pointwise nat_eq };

    ghost laws = { partial_equiv_from_equiv nat_list_eq_equiv };

    /// Whether both have the same bytes.
    fn eq(&self, other: &Ovn) -> bool
        ensures value { result ≡ pointwise nat_eq self.now other.now }
        ensures same { IsTrue result ↔ (self.now ≡ other.now) }
    {
        self.text.as_str() == other.text.as_str()
    }
}

impl Eq for Ovn {
    ghost laws = { nat_list_eq_equiv };
}

impl fmt::Display for Ovn {
    ghost output = { λ ovn. Some ovn };

    fn fmt<W: fmt::Write>(&self, f: &mut fmt::Formatter<W>) -> fmt::Result {
        f.write_str(self.as_str())
    }
}
