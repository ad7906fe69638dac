ghost use Rattle.std.specs.Prelude.{◌≡◌, ◌<◌, ◌≤◌, ◌-◌, ◌*◌, ◌^◌, true, pos, neg_ℤ, Ok, Err, is_some, IfSome, IfOk, IsTrue, length, take_while};
ghost use Rattle.std.specs.Char.{is_ascii_digit};
ghost use Rattle.std.specs.List.{list_all};
ghost use Rattle.std.specs.Str.{IsUtf8};
ghost use Rattle.std.specs.Str.Parse.{digits_value};
ghost use Rattle.jiff_core.specs.Calendar.{IsBetween};
ghost use Rattle.jiff_core.specs.DateTime.{civil_nanos};
ghost use Rattle.uss_wire_base.specs.Instants.{IsWritten};
ghost use Rattle.uss_wire_base.specs.Instants as spec;
ghost use Rattle.uss_vol4.specs.Ranges.{is_instant};
ghost use Rattle.uss_wire_base.specs.InstantText as words;
ghost use Rattle.uss_wire_base.specs.InstantText.{Takes};
ghost use Rattle.uss_wire_base.specs.Writing.{IsSigned64};

use jiff::Timestamp;
use jiff::civil::DateTime;
use jiff::tz::Offset;
use jiff_core::civil::DateTime as Plain;
use std::alloc::{AllocError, Global};
use std::marker::Model;
use uss_vol4::{EARLIEST, LATEST};

/// A date and a time of day as a text of RFC 3339 gives them, which needn't exist.
#[derive(Clone, Copy, Debug)]
struct Civil {
    year: i16,
    month: i8,
    day: i8,
    hour: i8,
    minute: i8,
    second: i8,
    nanosecond: i32,
    /// The seconds by which the clock is ahead of UTC.
    east: i32,
}

/// Why a text is no instant.
#[derive(Clone, Copy, Debug, PartialEq, Eq)]
pub enum InstantRefusal {
    /// 405: the text isn't a date-time of RFC 3339 with at most nine decimals, or its date or time of day doesn't exist.
    BadTime,
    /// 114: the moment is not from 2000-01-01 to 2200-01-01.
    TimeRange,
    /// There was no memory. It has no number, and reading takes none.
    Memory,
}

/// The date and time of day, if there is one.
fn shown(civil: Civil) -> Option<DateTime>
    requires { IsWritten civil }
    ensures there { is_some result ≡ spec.is_civil civil }
    ensures value { IfSome result (λ dt. civil_nanos dt ≡ spec.clock_of civil) }
{
    DateTime::new(
        civil.year,
        civil.month,
        civil.day,
        civil.hour,
        civil.minute,
        civil.second,
        civil.nanosecond,
    )
    .ok()
}

/// The moment, where it is in the range of instants.
fn in_range(instant: Timestamp) -> Result<i64, InstantRefusal>
    ensures { result ≡ spec.in_range instant.nanosecond }
{
    let moment = instant.as_nanosecond();
    if EARLIEST as i128 <= moment && moment <= LATEST as i128 {
        Ok(moment as i64)
    } else {
        Err(InstantRefusal::TimeRange)
    }
}

/// The moment of these parts.
#[tactic(auto, unfolding(crate::specs::Instants::instant_of))]
fn instant_of(civil: Civil) -> Result<i64, InstantRefusal>
    requires { IsWritten civil }
    ensures { result ≡ spec.instant_of civil }
{
    let Some(shown) = shown(civil) else {
        return Err(InstantRefusal::BadTime);
    };
    let Ok(offset) = Offset::from_seconds(civil.east) else {
        return Err(InstantRefusal::BadTime);
    };
    match offset.to_timestamp(shown) {
        Ok(instant) => in_range(instant),
        Err(_) => Err(InstantRefusal::TimeRange),
    }
}

/// The bytes of a text that are left to be read, seen as their list.
#[derive(Drop)]
struct Rest<'a> {
    bytes: &'a [u8],
}

impl<'a> Model for Rest<'a> {
    ghost use Rattle.std.specs.Prelude.{List, ℕ};

    ghost Value = { List ℕ };

    ghost view = { λ r. r.bytes.now };
}

fn are_digits(bytes: &[u8]) -> bool
    ensures { result ≡ list_all is_ascii_digit bytes.now }
{
    bytes.iter().all(|b| b.is_ascii_digit())
}

/// How many digits the text begins with.
fn digit_count(bytes: &[u8]) -> usize
    ensures { result ≡ length (take_while is_ascii_digit bytes.now) }
{
    bytes.iter().take_while(|b| b.is_ascii_digit()).count()
}

/// The number of decimal digits.
fn number(digits: &[u8]) -> u32
    requires digits { list_all is_ascii_digit digits.now ≡ true }
    requires few { length digits.now ≤ 9 }
    ensures value { result ≡ digits_value 10 digits.now }
    ensures bound { result < 10 ^ length digits.now }
{
    let mut number: u32 = 0;
    for digit in digits {
        number = number * 10 + u32::from(*digit - b'0');
    }
    number
}

/// The ns of so many decimals.
fn scaled(decimals: u32, count: u32) -> u32
    requires few { count ≤ 9 }
    requires decimals { decimals < 10 ^ count }
    ensures value { result ≡ decimals * 10 ^ (9 - count) }
    ensures bound { result ≤ 999_999_999 }
{
    decimals * 10u32.pow(9 - count)
}

impl<'a> Rest<'a> {
    /// The number of so many digits.
    #[tactic(auto, unfolding(crate::specs::InstantText::digits_at))]
    fn digits(&mut self, count: usize) -> Result<u32, InstantRefusal>
        requires { count ≤ 9 }
        ensures value { Takes result self.new (words.digits_at count self.old) }
        ensures bound { IfOk result (λ n. n < 10 ^ count) }
    {
        if self.bytes.len() < count {
            return Err(InstantRefusal::BadTime);
        }
        let (front, rest) = self.bytes.split_at(count);
        if !are_digits(front) {
            return Err(InstantRefusal::BadTime);
        }
        self.bytes = rest;
        Ok(number(front))
    }

    /// One of two bytes.
    #[tactic(auto, unfolding(crate::specs::InstantText::mark_at))]
    fn mark(&mut self, a: u8, b: u8) -> Result<(), InstantRefusal>
        ensures { Takes result self.new (words.mark_at a b self.old) }
    {
        match self.bytes {
            [c, rest @ ..] if *c == a || *c == b => {
                self.bytes = rest;
                Ok(())
            }
            _ => Err(InstantRefusal::BadTime),
        }
    }

    /// The ns of so many decimals.
    #[tactic(auto, unfolding(crate::specs::InstantText::scaled_at))]
    fn scaled(&mut self, count: usize) -> Result<u32, InstantRefusal>
        requires { count ≤ 9 }
        ensures value { Takes result self.new (words.scaled_at count self.old) }
        ensures bound { IfOk result (λ n. n ≤ 999_999_999) }
    {
        let decimals = self.digits(count)?;
        Ok(scaled(decimals, count as u32))
    }

    /// The ns of one to nine decimals.
    #[tactic(auto, unfolding(crate::specs::InstantText::decimals_at))]
    fn decimals(&mut self) -> Result<u32, InstantRefusal>
        ensures value { Takes result self.new (words.decimals_at self.old) }
        ensures bound { IfOk result (λ n. n ≤ 999_999_999) }
    {
        let count = digit_count(self.bytes);
        if 1 <= count && count <= 9 {
            self.scaled(count)
        } else {
            Err(InstantRefusal::BadTime)
        }
    }

    /// The decimals after a point, if there is one.
    #[tactic(auto, unfolding(crate::specs::InstantText::fraction_at))]
    fn fraction(&mut self) -> Result<u32, InstantRefusal>
        ensures value { Takes result self.new (words.fraction_at self.old) }
        ensures bound { IfOk result (λ n. n ≤ 999_999_999) }
    {
        match self.bytes {
            [b'.', rest @ ..] => {
                self.bytes = rest;
                self.decimals()
            }
            _ => Ok(0),
        }
    }

    /// Hours and minutes of an offset, in seconds.
    #[tactic(auto, unfolding(crate::specs::InstantText::clock_at))]
    fn clock(&mut self) -> Result<u32, InstantRefusal>
        ensures value { Takes result self.new (words.clock_at self.old) }
        ensures bound { IfOk result (λ n. n ≤ 86_399) }
    {
        let hours = self.digits(2)?;
        self.mark(b':', b':')?;
        let minutes = self.digits(2)?;
        if hours <= 23 && minutes <= 59 {
            Ok(hours * 3600 + minutes * 60)
        } else {
            Err(InstantRefusal::BadTime)
        }
    }

    #[tactic(auto, unfolding(crate::specs::InstantText::ahead_at))]
    fn ahead(&mut self) -> Result<i32, InstantRefusal>
        ensures value { Takes result self.new (words.ahead_at self.old) }
        ensures bound { IfOk result (IsBetween (neg_ℤ (pos 86_399)) (pos 86_399)) }
    {
        let seconds = self.clock()?;
        Ok(seconds as i32)
    }

    #[tactic(auto, unfolding(crate::specs::InstantText::behind_at))]
    fn behind(&mut self) -> Result<i32, InstantRefusal>
        ensures value { Takes result self.new (words.behind_at self.old) }
        ensures bound { IfOk result (IsBetween (neg_ℤ (pos 86_399)) (pos 86_399)) }
    {
        let seconds = self.clock()?;
        Ok(-(seconds as i32))
    }

    /// By how many seconds the clock is ahead of UTC.
    #[tactic(auto, unfolding(crate::specs::InstantText::zone_at))]
    fn zone(&mut self) -> Result<i32, InstantRefusal>
        ensures value { Takes result self.new (words.zone_at self.old) }
        ensures bound { IfOk result (IsBetween (neg_ℤ (pos 86_399)) (pos 86_399)) }
    {
        match self.bytes {
            [b'Z' | b'z', rest @ ..] => {
                self.bytes = rest;
                Ok(0)
            }
            [b'+', rest @ ..] => {
                self.bytes = rest;
                self.ahead()
            }
            [b'-', rest @ ..] => {
                self.bytes = rest;
                self.behind()
            }
            _ => Err(InstantRefusal::BadTime),
        }
    }

    /// The year, the month and the day.
    #[tactic(auto, unfolding(crate::specs::InstantText::date_at))]
    fn date(&mut self) -> Result<(u32, u32, u32), InstantRefusal>
        ensures value { Takes result self.new (words.date_at self.old) }
        ensures bound { IfOk result (λ d. (d.0 < 10_000) × (d.1 < 100) × (d.2 < 100)) }
    {
        let year = self.digits(4)?;
        self.mark(b'-', b'-')?;
        let month = self.digits(2)?;
        self.mark(b'-', b'-')?;
        let day = self.digits(2)?;
        Ok((year, month, day))
    }

    /// The hour, the minute, the second and the ns.
    #[tactic(auto, unfolding(crate::specs::InstantText::time_at))]
    fn time(&mut self) -> Result<(u32, u32, u32, u32), InstantRefusal>
        ensures value { Takes result self.new (words.time_at self.old) }
        ensures bound { IfOk result (λ t. (t.0 < 100) × (t.1 < 100) × (t.2 < 100) × (t.3 ≤ 999_999_999)) }
    {
        let hour = self.digits(2)?;
        self.mark(b':', b':')?;
        let minute = self.digits(2)?;
        self.mark(b':', b':')?;
        let second = self.digits(2)?;
        let nanosecond = self.fraction()?;
        Ok((hour, minute, second, nanosecond))
    }

    /// The end of the text.
    #[tactic(auto, unfolding(crate::specs::InstantText::end_at))]
    fn end(&mut self) -> Result<(), InstantRefusal>
        ensures { result ≡ words.end_at self.old }
    {
        if self.bytes.is_empty() {
            Ok(())
        } else {
            Err(InstantRefusal::BadTime)
        }
    }
}

fn civil_of(date: (u32, u32, u32), time: (u32, u32, u32, u32), east: i32) -> Civil
    requires date { (date.0 < 10_000) × (date.1 < 100) × (date.2 < 100) }
    requires time { (time.0 < 100) × (time.1 < 100) × (time.2 < 100) × (time.3 ≤ 999_999_999) }
    ensures { result ≡ words.civil_of date time east }
{
    Civil {
        year: date.0 as i16,
        month: date.1 as i8,
        day: date.2 as i8,
        hour: time.0 as i8,
        minute: time.1 as i8,
        second: time.2 as i8,
        nanosecond: time.3 as i32,
        east,
    }
}

#[tactic(auto, unfolding(crate::specs::InstantText::civil_at))]
fn parts_of(bytes: &[u8]) -> Result<Civil, InstantRefusal>
    ensures value { result ≡ words.civil_at bytes.now }
    ensures written { IfOk result IsWritten }
{
    let mut rest = Rest { bytes };
    let date = rest.date()?;
    rest.mark(b'T', b't')?;
    let time = rest.time()?;
    let zone = rest.zone()?;
    rest.end()?;
    Ok(civil_of(date, time, zone))
}

/// The moment that a text stands for, in ns since 1970-01-01T00:00:00Z: a date-time of RFC 3339 with `T` or `t`, up to nine decimals,
/// and `Z`, `z` or an offset with hours to 23 and minutes to 59. A second 60 is refused. Takes no memory.
pub fn read_instant(text: &[u8]) -> Result<i64, InstantRefusal>
    ensures { result ≡ words.read_instant text.now }
{
    let civil = parts_of(text)?;
    instant_of(civil)
}

fn digit(number: u32) -> u8
    ensures { result ≡ words.digit number }
{
    b'0' + (number % 10) as u8
}

fn two(number: u32) -> [u8; 2]
    ensures { result ≡ words.two number }
{
    [digit(number / 10), digit(number)]
}

fn four(number: u32) -> [u8; 4]
    ensures { result ≡ words.four number }
{
    [
        digit(number / 1000),
        digit(number / 100),
        digit(number / 10),
        digit(number),
    ]
}

fn nine(number: u32) -> [u8; 9]
    ensures { result ≡ words.nine number }
{
    [
        digit(number / 100_000_000),
        digit(number / 10_000_000),
        digit(number / 1_000_000),
        digit(number / 100_000),
        digit(number / 10_000),
        digit(number / 1000),
        digit(number / 100),
        digit(number / 10),
        digit(number),
    ]
}

/// What a clock in UTC shows at the moment.
fn utc(moment: i64) -> Plain
    ensures { civil_nanos result ≡ moment }
{
    Plain::from_nanosecond_in_range(i128::from(moment))
}

/// The text of the date and time of day of this moment.
fn shown_text(alloc: Global, shown: Plain) -> Result<Vec<u8>, AllocError>
    requires { IsSigned64 (civil_nanos shown) }
    ensures { IfOk result (λ t. t.items ≡ words.instant_text (civil_nanos shown)) }
{
    let (date, time) = (shown.date, shown.time);
    let mut text = Vec::with_capacity(alloc, 30)?;
    text.extend_from_slice(&four(u32::from(date.year.unsigned_abs())))?;
    text.push(b'-')?;
    text.extend_from_slice(&two(u32::from(date.month)))?;
    text.push(b'-')?;
    text.extend_from_slice(&two(u32::from(date.day)))?;
    text.push(b'T')?;
    text.extend_from_slice(&two(u32::from(time.hour)))?;
    text.push(b':')?;
    text.extend_from_slice(&two(u32::from(time.minute)))?;
    text.push(b':')?;
    text.extend_from_slice(&two(u32::from(time.second)))?;
    text.push(b'.')?;
    text.extend_from_slice(&nine(time.subsec_nanosecond))?;
    text.push(b'Z')?;
    Ok(text)
}

/// The text of a moment in ns since 1970-01-01T00:00:00Z: `YYYY-MM-DDTHH:MM:SS.nnnnnnnnnZ`, for each moment that 64 bits hold.
pub fn write_instant(alloc: Global, moment: i64) -> Result<Vec<u8>, AllocError>
    ensures text { IfOk result (λ t. t.items ≡ words.instant_text moment) }
    ensures again { IsTrue (is_instant moment) → IfOk result (λ t. words.read_instant t.items ≡ Ok moment) }
    ensures utf8 { IfOk result (λ t. IsUtf8 t.items) }
{
    shown_text(alloc, utc(moment))
}
