//! Dates and times as numbers.
//!
//! A date is `YYYY-MM-DD`, of the years 0000 to 9999. A time is a date, a `T` or a space, and `hh:mm`; then perhaps `:ss`,
//! and after that perhaps a dot and decimals of the second; and then perhaps `Z`, or `+` or `-` and an offset from UTC as
//! `hh:mm`, `hhmm` or `hh`. Without an offset it is a time of UTC.

ghost use Rattle.std.specs.Prelude.{◌≡◌, ◌+◌, ◌≤◌, length, pos, neg_ℤ, ◌+ℤ◌, ◌-ℤ◌, ◌*ℤ◌, option_map, IfSome};
ghost use Rattle.jiff_core.specs.Calendar.{IsBetween};
ghost use Rattle.sw_import.specs.Dates.{after_digits, after_fraction, clock_after, clock_of, day_number, days_of, digits_at, hours_and_minutes, minutes_of, offset_minutes, offset_of, pair_below, plain_minutes, seconds_and_rest, seconds_of};

use jiff_core::civil::Date;
use sw_rows::read_digits;

/// The number that so many digits write at a place of a text.
fn digits_at(text: &[u8], at: usize, many: usize) -> Option<u64>
    requires { at + many ≤ length text.now }
    ensures { result ≡ digits_at text.now at many }
{
    read_digits(0, &text[at..at + many])
}

/// The same, of two digits that are below a limit.
fn pair_below(text: &[u8], at: usize, limit: u64) -> Option<i64>
    requires { at + 2 ≤ length text.now }
    ensures value { result ≡ pair_below text.now at limit }
    ensures few { IfSome result (λ n. IsBetween (pos 0) (pos limit) n) }
{
    let number = digits_at(text, at, 2)?;
    if number < limit {
        i64::try_from(number).ok()
    } else {
        None
    }
}

/// The number of a day: 0 is the first of January 1970.
fn day_number(year: u64, month: u64, day: u64) -> Option<i64>
    ensures value { result ≡ day_number year month day }
    ensures few { IfSome result (IsBetween (neg_ℤ (pos 4371587)) (pos 2932896)) }
{
    let year = i16::try_from(year).ok()?;
    let month = i8::try_from(month).ok()?;
    let day = i8::try_from(day).ok()?;
    match Date::new(year, month, day) {
        Ok(date) => Some(i64::from(date.to_unix_epoch_day())),
        Err(_) => None,
    }
}

/// The days since the first of January 1970 of a date.
pub fn days_of(text: &[u8]) -> Option<i64>
    ensures value { result ≡ days_of text.now }
    ensures few { IfSome result (IsBetween (neg_ℤ (pos 4371587)) (pos 2932896)) }
{
    if text.len() != 10 || text[4] != b'-' || text[7] != b'-' {
        return None;
    }
    let year = digits_at(text, 0, 4)?;
    let month = digits_at(text, 5, 2)?;
    let day = digits_at(text, 8, 2)?;
    day_number(year, month, day)
}

/// The minutes of hours at the beginning of a text and minutes at a place.
fn hours_and_minutes(text: &[u8], at: usize) -> Option<i64>
    requires { at + 2 ≤ length text.now }
    ensures value { result ≡ hours_and_minutes text.now at }
    ensures few { IfSome result (IsBetween (pos 0) (pos 1500)) }
{
    let hours = pair_below(text, 0, 24)?;
    let minutes = pair_below(text, at, 60)?;
    Some(hours * 60 + minutes)
}

/// The minutes since midnight of `hh:mm`.
fn minutes_of(text: &[u8]) -> Option<i64>
    ensures value { result ≡ minutes_of text.now }
    ensures few { IfSome result (IsBetween (pos 0) (pos 1500)) }
{
    if text.len() != 5 || text[2] != b':' {
        return None;
    }
    hours_and_minutes(text, 3)
}

/// The minutes of `hhmm` or `hh`.
fn plain_minutes(text: &[u8]) -> Option<i64>
    ensures value { result ≡ plain_minutes text.now }
    ensures few { IfSome result (IsBetween (pos 0) (pos 1500)) }
{
    if text.len() == 2 {
        let hours = pair_below(text, 0, 24)?;
        return Some(hours * 60);
    }
    if text.len() == 4 {
        return hours_and_minutes(text, 2);
    }
    None
}

/// The minutes of an offset without its sign.
fn offset_minutes(text: &[u8]) -> Option<i64>
    ensures value { result ≡ offset_minutes text.now }
    ensures few { IfSome result (IsBetween (pos 0) (pos 1500)) }
{
    if text.len() == 5 {
        minutes_of(text)
    } else {
        plain_minutes(text)
    }
}

/// How many minutes before UTC the clock stands to which a time belongs.
fn offset_of(text: &[u8]) -> Option<i64>
    ensures value { result ≡ offset_of text.now }
    ensures few { IfSome result (IsBetween (neg_ℤ (pos 1500)) (pos 1500)) }
{
    match text {
        [] | [b'Z'] => Some(0),
        [b'+', rest @ ..] => offset_minutes(rest),
        [b'-', rest @ ..] => match offset_minutes(rest) {
            Some(minutes) => Some(-minutes),
            None => None,
        },
        _ => None,
    }
}

/// What comes after digits at the beginning of a text.
pub(crate) fn after_digits(text: &[u8]) -> &[u8]
    ensures { result.now ≡ after_digits text.now }
{
    let mut rest = text;
    'digits: while let [first, after @ ..] = rest {
        if !first.is_ascii_digit() {
            return rest;
        }
        rest = after;
    }
    rest
}

/// What comes after a dot and one or more digits, where a text begins so.
fn after_fraction(text: &[u8]) -> &[u8]
    ensures { result.now ≡ after_fraction text.now }
{
    match text {
        [b'.', b'0'..=b'9', rest @ ..] => after_digits(rest),
        _ => text,
    }
}

/// The whole seconds of a minute with which a text begins, and what comes after them; 0 where it begins otherwise.
fn seconds_and_rest(text: &[u8]) -> Option<(i64, &[u8])>
    ensures value { option_map (λ s. (s.0, s.1.now)) result ≡ seconds_and_rest text.now }
    ensures few { IfSome result (λ s. IsBetween (pos 0) (pos 60) s.0) }
{
    match text {
        [b':', rest @ ..] => {
            if rest.len() < 2 {
                return None;
            }
            let seconds = pair_below(rest, 0, 60)?;
            Some((seconds, after_fraction(&rest[2..])))
        }
        _ => Some((0, text)),
    }
}

/// The seconds since midnight UTC at these minutes and seconds of a clock, which stands so many minutes before UTC.
fn utc_clock(minutes: i64, offset: i64, seconds: i64) -> i64
    requires minutes { IsBetween (pos 0) (pos 1500) minutes }
    requires offset { IsBetween (neg_ℤ (pos 1500)) (pos 1500) offset }
    requires seconds { IsBetween (pos 0) (pos 60) seconds }
    ensures value { result ≡ (minutes -ℤ offset) *ℤ pos 60 +ℤ seconds }
    ensures few { IsBetween (neg_ℤ (pos 200000)) (pos 200000) result }
{
    (minutes - offset) * 60 + seconds
}

/// The same of the clock after a `T` or a space.
fn clock_after(text: &[u8]) -> Option<i64>
    ensures value { result ≡ clock_after text.now }
    ensures few { IfSome result (IsBetween (neg_ℤ (pos 200000)) (pos 200000)) }
{
    match text {
        [b'T', rest @ ..] => clock_of(rest),
        [b' ', rest @ ..] => clock_of(rest),
        _ => None,
    }
}

/// The seconds since 1970 began of a day's number and the seconds since its midnight.
fn day_and_clock(days: i64, clock: i64) -> i64
    requires days { IsBetween (neg_ℤ (pos 4371587)) (pos 2932896) days }
    requires clock { IsBetween (neg_ℤ (pos 200000)) (pos 200000) clock }
    ensures { result ≡ days *ℤ pos 86400 +ℤ clock }
{
    days * 86_400 + clock
}

/// The seconds since midnight UTC of the time of a day: `hh:mm` and what may follow.
fn clock_of(text: &[u8]) -> Option<i64>
    ensures value { result ≡ clock_of text.now }
    ensures few { IfSome result (IsBetween (neg_ℤ (pos 200000)) (pos 200000)) }
{
    if text.len() < 5 {
        return None;
    }
    let (front, rest) = text.split_at(5);
    let minutes = minutes_of(front)?;
    let (seconds, rest) = seconds_and_rest(rest)?;
    let offset = offset_of(rest)?;
    Some(utc_clock(minutes, offset, seconds))
}

/// The whole seconds since 1970 began, in UTC, of a date or of a time.
pub fn seconds_of(text: &[u8]) -> Option<i64>
    ensures { result ≡ seconds_of text.now }
{
    if text.len() <= 10 {
        let days = days_of(text)?;
        return Some(days * 86_400);
    }
    let (front, rest) = text.split_at(10);
    let days = days_of(front)?;
    let clock = clock_after(rest)?;
    Some(day_and_clock(days, clock))
}
