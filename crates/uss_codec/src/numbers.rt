ghost use Rattle.std.specs.Prelude.{◌≡◌, ◌<◌, ◌^◌, ◌++◌, OnOk};
ghost use Rattle.std.specs.Int.{w16, w32, w64};
ghost use Rattle.std.specs.Int.RustNames.{FitsSigned};
ghost use Rattle.uss_codec.specs.Spelling.{in_1_byte, in_2_bytes, in_4_bytes, in_8_bytes, in_16_bytes, signed_in_8_bytes};
ghost use Rattle.uss_codec.specs.Reading.{Gives, number_at, in_1_byte_at, in_2_bytes_at, in_4_bytes_at, in_8_bytes_at, in_16_bytes_at, signed_in_8_bytes_at};
ghost use Rattle.uss_codec.specs.Laws.{coded_in_1_byte, coded_in_2_bytes, coded_in_4_bytes, coded_in_8_bytes, coded_in_16_bytes, coded_signed};

use crate::{Coded, Unread};
use std::alloc::{AllocError, Global};

impl Coded for u8 {
    ghost fits = { λ n. n < 2 ^ 8 };

    ghost spelling = { in_1_byte };

    ghost reading = { in_1_byte_at };

    fn put(&self, out: &mut Vec<u8>) -> Result<(), AllocError> {
        out.push(*self)?;
        Ok(())
    }

    #[tactic(auto, unfolding(crate::specs::Reading::in_1_byte_at))]
    fn take(_: Global, bytes: &[u8]) -> Result<(u8, &[u8]), Unread> {
        match bytes {
            [] => Err(Unread::Malformed),
            [number, rest @ ..] => Ok((*number, rest)),
        }
    }

    ghost exact = { coded_in_1_byte };
}

impl Coded for u16 {
    ghost fits = { λ n. n < 2 ^ 16 };

    ghost spelling = { in_2_bytes };

    ghost reading = { in_2_bytes_at };

    #[tactic(auto, unfolding(crate::specs::Spelling::number))]
    fn put(&self, out: &mut Vec<u8>) -> Result<(), AllocError> {
        out.extend_from_slice(&self.to_be_bytes())
    }

    #[tactic(auto, unfolding(crate::specs::Reading::number_at))]
    fn take(_: Global, bytes: &[u8]) -> Result<(u16, &[u8]), Unread> {
        if bytes.len() < 2 {
            return Err(Unread::Malformed);
        }
        let (front, rest) = bytes.split_at(2);
        Ok((u16::from_be_bytes([front[0], front[1]]), rest))
    }

    ghost exact = { coded_in_2_bytes };
}

impl Coded for u32 {
    ghost fits = { λ n. n < 2 ^ 32 };

    ghost spelling = { in_4_bytes };

    ghost reading = { in_4_bytes_at };

    #[tactic(auto, unfolding(crate::specs::Spelling::number))]
    fn put(&self, out: &mut Vec<u8>) -> Result<(), AllocError> {
        out.extend_from_slice(&self.to_be_bytes())
    }

    #[tactic(auto, unfolding(crate::specs::Reading::number_at))]
    fn take(_: Global, bytes: &[u8]) -> Result<(u32, &[u8]), Unread> {
        if bytes.len() < 4 {
            return Err(Unread::Malformed);
        }
        let (front, rest) = bytes.split_at(4);
        let number = u32::from_be_bytes([front[0], front[1], front[2], front[3]]);
        Ok((number, rest))
    }

    ghost exact = { coded_in_4_bytes };
}

impl Coded for u64 {
    ghost fits = { λ n. n < 2 ^ 64 };

    ghost spelling = { in_8_bytes };

    ghost reading = { in_8_bytes_at };

    #[tactic(auto, unfolding(crate::specs::Spelling::number))]
    fn put(&self, out: &mut Vec<u8>) -> Result<(), AllocError> {
        out.extend_from_slice(&self.to_be_bytes())
    }

    #[tactic(auto, unfolding(crate::specs::Reading::number_at))]
    fn take(_: Global, bytes: &[u8]) -> Result<(u64, &[u8]), Unread> {
        if bytes.len() < 8 {
            return Err(Unread::Malformed);
        }
        let (front, rest) = bytes.split_at(8);
        let number = u64::from_be_bytes([
            front[0], front[1], front[2], front[3], front[4], front[5], front[6], front[7],
        ]);
        Ok((number, rest))
    }

    ghost exact = { coded_in_8_bytes };
}

/// The half of an identifier: 2 ^ 64.
const HALF: u128 = 1 << 64;

impl Coded for u128 {
    ghost fits = { λ n. n < 2 ^ 128 };

    ghost spelling = { in_16_bytes };

    ghost reading = { in_16_bytes_at };

    fn put(&self, out: &mut Vec<u8>) -> Result<(), AllocError> {
        let number = *self;
        let high = (number / HALF) as u64;
        let low = (number % HALF) as u64;
        high.put(out)?;
        low.put(out)
    }

    #[tactic(auto, unfolding(crate::specs::Reading::in_16_bytes_at))]
    fn take(alloc: Global, bytes: &[u8]) -> Result<(u128, &[u8]), Unread> {
        let (high, rest) = u64::take(alloc, bytes)?;
        let (low, rest) = u64::take(alloc, rest)?;
        Ok((u128::from(high) * HALF + u128::from(low), rest))
    }

    ghost exact = { coded_in_16_bytes };
}

impl Coded for i64 {
    ghost fits = { λ z. FitsSigned w64 z };

    ghost spelling = { signed_in_8_bytes };

    ghost reading = { signed_in_8_bytes_at };

    fn put(&self, out: &mut Vec<u8>) -> Result<(), AllocError> {
        self.cast_unsigned().put(out)
    }

    #[tactic(auto, unfolding(crate::specs::Reading::signed_in_8_bytes_at))]
    fn take(alloc: Global, bytes: &[u8]) -> Result<(i64, &[u8]), Unread> {
        let (number, rest) = u64::take(alloc, bytes)?;
        Ok((number.cast_signed(), rest))
    }

    ghost exact = { coded_signed };
}
