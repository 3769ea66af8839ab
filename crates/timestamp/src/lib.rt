// Timestamps: document 01's modules types/timestamp and binary/timestamp.
// A field is 32 bits wide and never cut: a year of 70000 is a bad year.
// `buf` and `at` are two parameters: the buffer is lent at each call, and a struct around both would be made and taken apart in each function.
// `as` stands where Rust has no `From`: from u32 to usize, and from u64 to u32 of a number that 32 bits hold.
#![tactic(auto)]

ghost use Rattle.std.specs.Prelude.{◌≡◌, true, false, ◌&&◌, List, [], ℕ, Option, ◌+◌, ◌%◌, ◌^◌, ◌≤◌, ◌<◌, ltb, leb, length, nat_abs, MatchOption};
ghost use Rattle.ion.specs.Value.{signed};
ghost use Rattle.buffer.specs.Laid.{placed, written, size_of};
ghost use Rattle.encoding.specs.Fields.{var_int_bytes, var_uint_bytes, var_uints_bytes};
ghost use Rattle.encoding.specs.Argument.{checked_bytes};
ghost use Rattle.encoding.specs.Timestamp.{offset_bytes, fraction_bytes, day_before, day_after, utc_minutes, utc_day, utc_fields};
ghost use Rattle.encoding.specs.Timestamp.{year_rule, month_rule, day_rule, offset_rules, fraction_rules, first_bad, is_none, is_local_timestamp, is_timestamp};
ghost use Rattle.timestamp.specs.Arguments.{offset_minutes, fraction_digits, field_count, fields_of, argument_of};
ghost use Rattle.timestamp.specs.Utc.{date_of, with_fields, in_utc, utc_of};
ghost use Rattle.timestamp.specs.Small.{Small, Small_prop, body_of, value_of};

// The last field that counts; those below it mean nothing. With a minute there is an hour.
#[derive(Clone, Copy)]
pub enum Precision {
    Year,
    Month,
    Day,
    Minute,
    Second,
}

// Behind the seconds: how many digits there are, and the number that they make.
#[derive(Clone, Copy)]
pub struct Fraction {
    pub digits: u32,
    pub coefficient: u64,
}

// The fields are local. The offset is local time minus UTC in minutes, and there is none where it is unknown.
#[derive(Clone, Copy)]
pub struct Timestamp {
    pub precision: Precision,
    pub year: u32,
    pub month: u32,
    pub day: u32,
    pub hour: u32,
    pub minute: u32,
    pub second: u32,
    pub offset: Option<i32>,
    pub fraction: Option<Fraction>,
}

// ---- check 7

// This range and that of a month are one comparison each: one function of both would be given the bounds and say no more.
fn is_year(year: u32) -> bool
    ensures { result ≡ (year_rule year).holds }
{
    (1 <= year) & (year <= 9999)
}

fn is_month(month: u32) -> bool
    ensures { result ≡ (month_rule month).holds }
{
    (1 <= month) & (month <= 12)
}

// No day is one of a month that is not.
fn is_day(year: u32, month: u32, day: u32) -> bool
    ensures { result ≡ (day_rule year month day).holds }
{
    (1 <= day) & (day <= calendar::days_in_month(year, month))
}

impl Precision {
    // How many fields count, from the year down: a count of the precision and no number for it, so no `From`.
    fn field_count(self) -> u32
        ensures { result ≡ field_count self }
    {
        match self {
            Precision::Year => 1,
            Precision::Month => 2,
            Precision::Day => 3,
            Precision::Minute => 5,
            Precision::Second => 6,
        }
    }
}

// That of the least i32 is 2 to the 31.
fn offset_magnitude(minutes: i32) -> u32
    ensures { result ≡ nat_abs minutes }
{
    sign::magnitude(i64::from(minutes)) as u32
}

impl Fraction {
    // At most 18 digits, and a coefficient below ten to their count.
    fn digits_hold(self) -> bool
        ensures { result ≡ (leb self.digits 18 && ltb self.coefficient (10 ^ self.digits)) }
    {
        let Some(power) = digits::power_of_ten(u64::from(self.digits)) else {
            return false;
        };
        (self.digits <= 18) & (self.coefficient < power)
    }
}

impl Timestamp {
    // Unknown, or -1439 to 1439 minutes at minute or second precision.
    fn offset_fits(self) -> bool
        ensures { result ≡ is_none (first_bad (offset_rules (offset_minutes self.offset) (fields_of self))) }
    {
        match self.offset {
            None => true,
            Some(minutes) => {
                (5 <= self.precision.field_count()) & (offset_magnitude(minutes) <= 1439)
            }
        }
    }

    // None, or 1 to 18 digits at second precision.
    fn fraction_fits(self) -> bool
        ensures { result ≡ is_none (first_bad (fraction_rules (fraction_digits self.fraction) (fields_of self))) }
    {
        match self.fraction {
            None => true,
            Some(fraction) => {
                (self.precision.field_count() == 6)
                    & ((1 <= fraction.digits) & fraction.digits_hold())
            }
        }
    }

    // The local fields, year 1 to 9999, a day of the calendar, hour 0 to 23, minute and second 0 to 59, as far as the precision goes; then offset and fraction.
    // Inline: called, it reads a copy of the timestamp in memory, and `gm_write_timestamp` takes 511 instructions where it takes 482.
    #[inline(always)]
    fn is_local(self) -> bool
        ensures { result ≡ is_local_timestamp (offset_minutes self.offset) (fields_of self) (fraction_digits self.fraction) }
    {
        let fields = self.precision.field_count();
        is_year(self.year)
            & (((fields < 2) | is_month(self.month))
                & (((fields < 3) | is_day(self.year, self.month, self.day))
                    & (((fields < 5) | ((self.hour < 24) & (self.minute < 60)))
                        & (((fields < 6) | (self.second < 60))
                            & (self.offset_fits() & self.fraction_fits())))))
    }

    // Check 7: the local rules, then the UTC year, which is 1 to 9999 too. None where it is not passed, else the UTC fields in the place of the local ones.
    // Each caller has its own copy, with this inline, since most of them do not use all of the fields.
    #[inline(always)]
    #[tactic(auto, using(crate::proofs::UtcFields::not_local, crate::proofs::UtcFields::by_utc_year, crate::proofs::SmallFields::utc_small))]
    fn checked(self) -> Option<Utc>
        ensures { MatchOption result
            (is_timestamp (offset_minutes self.offset) (fields_of self) (fraction_digits self.fraction) ≡ false)
            (λ u. (is_timestamp (offset_minutes self.offset) (fields_of self) (fraction_digits self.fraction) ≡ true) × (u.t ≡ in_utc self)) }
    {
        if !self.is_local() {
            return None;
        }
        let local = Local { t: self };
        let t = local.in_utc();
        if !is_year(t.year) {
            return None;
        }
        Some(Utc { t })
    }

    // Check 7 alone.
    pub fn is_valid(self) -> bool
        ensures { result ≡ is_timestamp (offset_minutes self.offset) (fields_of self) (fraction_digits self.fraction) }
    {
        self.checked().is_some()
    }

    // The UTC fields in the place of the local ones, and the offset kept. A timestamp that does not pass check 7 stays as it is.
    #[tactic(auto, using(crate::proofs::UtcFields::utc_of_valid, crate::proofs::UtcFields::utc_of_other))]
    pub fn to_utc(self) -> Timestamp
        ensures { result ≡ utc_of self }
    {
        match self.checked() {
            Some(utc) => utc.t,
            None => self,
        }
    }
}

// ---- UTC: local minus offset

// A day of the years 0 to 10000.
#[derive(Clone, Copy)]
struct Date {
    year: u32,
    month: u32,
    day: u32,
}

// A timestamp whose local fields, offset and fraction keep the rules of check 7, so that its year is 1 to 9999.
#[derive(Clone, Copy)]
struct Local {
    t: Timestamp,
    ghost keeps: { is_local_timestamp (offset_minutes t.offset) (fields_of t) (fraction_digits t.fraction) ≡ true },
}

// The minutes of a day.
const DAY: u32 = 1440;

// In minutes from the start of the day before.
fn utc_minutes(offset: i32, hour: u32, minute: u32) -> u32
    requires { (nat_abs offset ≤ 1439) × (hour < 24) × (minute < 60) }
    ensures { result ≡ utc_minutes offset hour minute }
{
    let local = DAY + (hour * 60 + minute);
    let distance = offset_magnitude(offset);
    if offset < 0 {
        return local + distance;
    }
    local - distance
}

impl Local {
    // Its year is 1 to 9999.
    #[tactic(auto, using(crate::proofs::Valid::year_between))]
    fn date(self) -> Date
        ensures { (result ≡ record { year = self.t.year; month = self.t.month; day = self.t.day }) × (1 ≤ result.year) × (result.year ≤ 9999) }
    {
        Date {
            year: self.t.year,
            month: self.t.month,
            day: self.t.day,
        }
    }

    #[tactic(auto, unfolding(encoding::specs::Timestamp::day_before))]
    fn day_before(self) -> Date
        ensures { date_of result ≡ day_before self.t.year self.t.month self.t.day }
    {
        let date = self.date();
        if 1 < date.day {
            return Date {
                day: date.day - 1,
                ..date
            };
        }
        if 1 < date.month {
            let month = date.month - 1;
            return Date {
                month,
                day: calendar::days_in_month(date.year, month),
                ..date
            };
        }
        Date {
            year: date.year - 1,
            month: 12,
            day: 31,
        }
    }

    #[tactic(auto, unfolding(encoding::specs::Timestamp::day_after))]
    fn day_after(self) -> Date
        ensures { date_of result ≡ day_after self.t.year self.t.month self.t.day }
    {
        let date = self.date();
        if date.day < calendar::days_in_month(date.year, date.month) {
            return Date {
                day: date.day + 1,
                ..date
            };
        }
        if date.month < 12 {
            return Date {
                month: date.month + 1,
                day: 1,
                ..date
            };
        }
        Date {
            year: date.year + 1,
            month: 1,
            day: 1,
        }
    }

    // The day of the minute that is so many minutes behind the start of the day before.
    #[inline(always)]
    fn utc_day(self, minutes: u32) -> Date
        ensures { date_of result ≡ utc_day minutes self.t.year self.t.month self.t.day }
    {
        if minutes < DAY {
            return self.day_before();
        }
        if minutes < 2 * DAY {
            return self.date();
        }
        self.day_after()
    }

    // The fields of that minute.
    #[inline(always)]
    #[tactic(auto, unfolding(crate::specs::Utc::with_fields))]
    fn at_minute(self, minutes: u32) -> Timestamp
        ensures { result ≡ with_fields self.t (utc_fields minutes self.t.year self.t.month self.t.day []) }
    {
        let Date { year, month, day } = self.utc_day(minutes);
        let minute = minutes % DAY;
        Timestamp {
            year,
            month,
            day,
            hour: minute / 60,
            minute: minute % 60,
            ..self.t
        }
    }

    // With no offset known the fields stay.
    #[inline(always)]
    #[tactic(auto, using(crate::proofs::UtcFields::utc_unknown))]
    fn in_utc(self) -> Timestamp
        ensures { result ≡ in_utc self.t }
    {
        match self.t.offset {
            None => self.t,
            Some(offset) => self.at_minute(utc_minutes(offset, self.t.hour, self.t.minute)),
        }
    }
}

// ---- the bytes

const TYPE_CODE: u8 = 0x60;

// A timestamp whose fields are UTC and that passes check 7, so that its numbers are small.
#[derive(Clone, Copy)]
struct Utc {
    t: Timestamp,
    ghost small: { Small t } by { Small_prop t },
}

// One byte holds each field below the year; the remainder lets the compiler see that it does.
fn put_small(buf: &mut [u8], at: usize, value: u32) -> Option<usize>
    ensures { ◌≡◌ {A = Option ℕ × List ℕ} (result, buf.new) (placed buf.old at (var_uint_bytes (value % 128))) }
{
    var_uint::write(buf, at, u64::from(value % 128))
}

impl Utc {
    // Two bytes hold the year; the remainder lets the compiler see that they do.
    fn year(self) -> u64
        ensures { result ≡ self.t.year }
    {
        u64::from(self.t.year % 16384)
    }

    // The sign and the magnitude of the offset, which two bytes hold too. Unknown is negative zero.
    fn offset_parts(self) -> (bool, u64)
        ensures { var_int_bytes (signed result.0 result.1) ≡ offset_bytes (offset_minutes self.t.offset) }
    {
        match self.t.offset {
            None => (true, 0),
            Some(minutes) => (minutes < 0, u64::from(offset_magnitude(minutes) % 8192)),
        }
    }

    // The fields as VarUInts, as far as the precision goes. Those below the year take one byte each, and there is room for them.
    // The loop ends by `break`: over `below[..count]` the fields lie in memory, and `gm_write_timestamp` takes 486 instructions where it takes 482.
    fn put_fields(self, buf: &mut [u8], at: usize) -> Option<usize>
        requires { at + length (var_uints_bytes (fields_of self.t)) ≤ length buf.old }
        ensures { ◌≡◌ {A = Option ℕ × List ℕ} (result, buf.new) (placed buf.old at (var_uints_bytes (fields_of self.t))) }
    {
        let below = [
            self.t.month,
            self.t.day,
            self.t.hour,
            self.t.minute,
            self.t.second,
        ];
        let count = self.t.precision.field_count() as usize - 1;
        let year = var_uint::write(buf, at, self.year())?;
        for (i, field) in below.iter().enumerate() {
            if i == count {
                break;
            }
            put_small(buf, at + year + i, *field)?;
        }
        Some(year + count)
    }

    // A decimal's body: the exponent, below zero, which one byte holds, then the coefficient as an Int.
    fn put_fraction(self, buf: &mut [u8], at: usize) -> Option<usize>
        requires { at + length (fraction_bytes (fraction_digits self.t.fraction)) ≤ length buf.old }
        ensures { ◌≡◌ {A = Option ℕ × List ℕ} (result, buf.new) (placed buf.old at (fraction_bytes (fraction_digits self.t.fraction))) }
    {
        match self.t.fraction {
            None => Some(0),
            Some(fraction) => {
                let one = var_int::write(buf, at, true, u64::from(fraction.digits % 64))?;
                let more = int::write_u64(buf, at + one, fraction.coefficient)?;
                Some(one + more)
            }
        }
    }

    // 0 is the length of a fraction that is not there.
    #[tactic(auto, using(encoding::proofs::Fractions::fraction_length, encoding::proofs::Fractions::coefficient_most))]
    fn fraction_size(self) -> usize
        ensures { result ≡ length (fraction_bytes (fraction_digits self.t.fraction)) }
    {
        match self.t.fraction {
            None => 0,
            Some(fraction) => int::encoded_size_of_u64(fraction.coefficient) + 1,
        }
    }

    // The fields below the year count by their number alone.
    #[tactic(auto, using(crate::proofs::Body::body_parts))]
    fn body_size(self) -> usize
        ensures { result ≡ length (body_of self.t) }
    {
        let (_, offset) = self.offset_parts();
        var_int::encoded_size_of(offset)
            + (var_uint::encoded_size_of(self.year())
                + (self.t.precision.field_count() as usize - 1)
                + self.fraction_size())
    }

    // Offset, UTC fields, fraction.
    fn put_body(self, buf: &mut [u8], at: usize) -> Option<usize>
        requires { at + length (body_of self.t) ≤ length buf.old }
        ensures { ◌≡◌ {A = Option ℕ × List ℕ} (result, buf.new) (placed buf.old at (body_of self.t)) }
    {
        let (negative, magnitude) = self.offset_parts();
        let one = var_int::write(buf, at, negative, magnitude)?;
        let two = self.put_fields(buf, at + one)?;
        let three = self.put_fraction(buf, at + one + two)?;
        Some(one + two + three)
    }

    // Header and body.
    #[tactic(auto, using(crate::proofs::Values::value_length, crate::proofs::Values::value_fits))]
    fn value_size(self) -> usize
        ensures { result ≡ length (value_of self.t) }
    {
        let body = self.body_size();
        header::encoded_size_of(body) + body
    }

    // As `Decimal::write` and `scalars::write_bytes`: the bodies are put by three functions, so only the test of the room could be shared.
    fn put(self, buf: &mut [u8], at: usize) -> Option<usize>
        ensures { ◌≡◌ {A = Option ℕ × List ℕ} (result, buf.new) (placed buf.old at (value_of self.t)) }
    {
        let body = self.body_size();
        let size = header::encoded_size_of(body) + body;
        if !buffer::has_room(buf.len(), at, size) {
            return None;
        }
        let header = header::write(buf, at, TYPE_CODE, body)?;
        let rest = self.put_body(buf, at + header)?;
        Some(header + rest)
    }
}

// The bytes that `t` takes, header and body; none where it does not pass check 7.
#[tactic(auto, using(crate::proofs::Values::refused, crate::proofs::Values::accepted_size))]
pub fn size(t: Timestamp) -> Option<usize>
    ensures { result ≡ size_of (checked_bytes (argument_of t)) }
{
    let utc = t.checked()?;
    Some(utc.value_size())
}

// Header and body: the offset as a VarInt, the UTC fields as VarUInts, then any fraction as a decimal's body.
// Nothing is put where `t` does not pass check 7.
#[tactic(auto, using(crate::proofs::Values::refused, crate::proofs::Values::accepted_put))]
pub fn write(buf: &mut [u8], at: usize, t: Timestamp) -> Option<usize>
    ensures { ◌≡◌ {A = Option ℕ × List ℕ} (result, buf.new) (written buf.old at (checked_bytes (argument_of t))) }
{
    let utc = t.checked()?;
    utc.put(buf, at)
}
