ghost use Rattle.std.specs.Prelude.{◌≡◌, ◌<◌, ◌≤◌, ◌^◌, ◌++◌, length, OnOk};
ghost use Rattle.uss_intent.specs.Texts.{IsName, IsOvn, IsBase};
ghost use Rattle.uss_codec.specs.Spelling.{text, in_16_bytes};
ghost use Rattle.uss_codec.specs.Reading.{Gives, text_at, in_16_bytes_at};
ghost use Rattle.uss_codec.specs.Texts.{name_at, ovn_at, base_at};
ghost use Rattle.uss_codec.specs.TextLaws.{coded_name, coded_ovn, coded_base};
ghost use Rattle.uss_codec.specs.Laws.{coded_in_16_bytes};

use crate::{Coded, Unread};
use std::alloc::{AllocError, Global};
use uss_intent::{Base, FlightId, IntentRefusal, Name, Ovn, TicketId};

/// Writes a text after the bytes: its length and its bytes.
fn put_text(content: &[u8], out: &mut Vec<u8>) -> Result<(), AllocError>
    requires { length content.now < 2 ^ 32 }
    ensures { OnOk result (out.new.items ≡ out.old.items ++ text content.now) }
{
    (content.len() as u32).put(out)?;
    out.extend_from_slice(content)
}

/// The text at the start, and the bytes after it.
#[tactic(auto, unfolding(crate::specs::Reading::text_at))]
fn take_text(alloc: Global, bytes: &[u8]) -> Result<(&[u8], &[u8]), Unread>
    ensures { Gives (λ x. (x.0.now, x.1.now)) result (text_at bytes.now) }
{
    let (len, rest) = u32::take(alloc, bytes)?;
    let len = len as usize;
    if rest.len() < len {
        return Err(Unread::Malformed);
    }
    Ok(rest.split_at(len))
}

impl Coded for Name {
    ghost fits = { IsName };

    ghost spelling = { text };

    ghost reading = { name_at };

    fn put(&self, out: &mut Vec<u8>) -> Result<(), AllocError> {
        put_text(self.as_bytes(), out)
    }

    #[tactic(auto, unfolding(crate::specs::Texts::name_at))]
    fn take(alloc: Global, bytes: &[u8]) -> Result<(Name, &[u8]), Unread> {
        let (text, rest) = take_text(alloc, bytes)?;
        match Name::of(alloc, text) {
            Ok(name) => Ok((name, rest)),
            Err(IntentRefusal::BadName) => Err(Unread::Malformed),
            Err(_) => Err(Unread::Memory),
        }
    }

    ghost exact = { coded_name };
}

impl Coded for Ovn {
    ghost fits = { IsOvn };

    ghost spelling = { text };

    ghost reading = { ovn_at };

    fn put(&self, out: &mut Vec<u8>) -> Result<(), AllocError> {
        put_text(self.as_bytes(), out)
    }

    #[tactic(auto, unfolding(crate::specs::Texts::ovn_at))]
    fn take(alloc: Global, bytes: &[u8]) -> Result<(Ovn, &[u8]), Unread> {
        let (text, rest) = take_text(alloc, bytes)?;
        match Ovn::of(alloc, text) {
            Ok(ovn) => Ok((ovn, rest)),
            Err(IntentRefusal::BadOvn) => Err(Unread::Malformed),
            Err(_) => Err(Unread::Memory),
        }
    }

    ghost exact = { coded_ovn };
}

impl Coded for Base {
    ghost fits = { IsBase };

    ghost spelling = { text };

    ghost reading = { base_at };

    fn put(&self, out: &mut Vec<u8>) -> Result<(), AllocError> {
        put_text(self.as_bytes(), out)
    }

    #[tactic(auto, unfolding(crate::specs::Texts::base_at))]
    fn take(alloc: Global, bytes: &[u8]) -> Result<(Base, &[u8]), Unread> {
        let (text, rest) = take_text(alloc, bytes)?;
        match Base::of(alloc, text) {
            Ok(base) => Ok((base, rest)),
            Err(IntentRefusal::BadBase) => Err(Unread::Malformed),
            Err(_) => Err(Unread::Memory),
        }
    }

    ghost exact = { coded_base };
}

impl Coded for FlightId {
    ghost fits = { λ n. n < 2 ^ 128 };

    ghost spelling = { in_16_bytes };

    ghost reading = { in_16_bytes_at };

    fn put(&self, out: &mut Vec<u8>) -> Result<(), AllocError> {
        self.number().put(out)
    }

    fn take(alloc: Global, bytes: &[u8]) -> Result<(FlightId, &[u8]), Unread> {
        let (number, rest) = u128::take(alloc, bytes)?;
        Ok((FlightId::from_number(number), rest))
    }

    ghost exact = { coded_in_16_bytes };
}

impl Coded for TicketId {
    ghost fits = { λ n. n < 2 ^ 128 };

    ghost spelling = { in_16_bytes };

    ghost reading = { in_16_bytes_at };

    fn put(&self, out: &mut Vec<u8>) -> Result<(), AllocError> {
        self.number().put(out)
    }

    fn take(alloc: Global, bytes: &[u8]) -> Result<(TicketId, &[u8]), Unread> {
        let (number, rest) = u128::take(alloc, bytes)?;
        Ok((TicketId::from_number(number), rest))
    }

    ghost exact = { coded_in_16_bytes };
}
