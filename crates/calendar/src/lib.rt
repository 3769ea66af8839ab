// The Gregorian calendar: the days of a month, and the days and minutes counted from the year 0 on.
// Year and month are two numbers: each caller has them in a record of its own, and would make another for one call.
#![tactic(auto)]

ghost use Rattle.std.specs.Prelude.{◌≡◌};
ghost use Rattle.ion.specs.Calendar.{is_leap_year, days_in_month, days_before_month, days_before_year, minute_number};

// ---- days of a month

// In a year that is no leap year.
const DAYS_IN_MONTH: [u32; 13] = [0, 31, 28, 31, 30, 31, 30, 31, 31, 30, 31, 30, 31];

pub fn is_leap_year(year: u32) -> bool
    ensures { result ≡ is_leap_year year }
{
    (year % 4 == 0) & ((year % 100 != 0) | (year % 400 == 0))
}

// A count of days, 0 for a month that is not, as in the definition. Rust has no `From` for `u32` to `usize`.
#[tactic(auto, using(crate::proofs::Months::days_leap, crate::proofs::Months::days_plain))]
pub fn days_in_month(year: u32, month: u32) -> u32
    ensures { result ≡ days_in_month year month }
{
    if (month == 2) & is_leap_year(year) {
        return 29;
    }
    if 12 < month {
        return 0;
    }
    DAYS_IN_MONTH[month as usize]
}

// ---- days and minutes counted

// In a year that is no leap year.
const DAYS_BEFORE_MONTH: [u64; 13] = [0, 0, 31, 59, 90, 120, 151, 181, 212, 243, 273, 304, 334];

#[tactic(auto, using(crate::proofs::Counted::year_leap, crate::proofs::Counted::year_plain))]
fn days_in_year(year: u32) -> u64
    ensures { result ≡ days_before_month year 13 }
{
    if is_leap_year(year) {
        return 366;
    }
    365
}

// Of the year's days, those before a month: all of them for one behind December.
#[tactic(auto, using(crate::proofs::Counted::before_past, crate::proofs::Counted::before_leap, crate::proofs::Counted::before_plain, crate::proofs::Counted::leap_most))]
pub fn days_before_month(year: u32, month: u32) -> u64
    ensures { result ≡ days_before_month year month }
{
    if 12 < month {
        return days_in_year(year);
    }
    if (2 < month) & is_leap_year(year) {
        return DAYS_BEFORE_MONTH[month as usize] + 1;
    }
    DAYS_BEFORE_MONTH[month as usize]
}

// From the first of January of the year 0 on. The year 0 is a leap year, so the years of each rule are rounded up.
#[tactic(auto, using(crate::proofs::Counted::years_counted))]
pub fn days_before_year(year: u32) -> u64
    ensures { result ≡ days_before_year year }
{
    let y = u64::from(year);
    365 * y + (y + 3) / 4 - (y + 99) / 100 + (y + 399) / 400
}

// Counted from the same day on, which has the number one.
#[tactic(auto, using(crate::proofs::Counted::years_most, crate::proofs::Counted::before_most), unfolding(ion::specs::Calendar::minute_number, ion::specs::Calendar::day_number))]
pub fn minute_number(year: u32, month: u32, day: u32, hour: u32, minute: u32) -> u64
    ensures { result ≡ minute_number year month day hour minute }
{
    let days = days_before_year(year) + days_before_month(year, month) + u64::from(day);
    days * 1440 + (u64::from(hour) * 60 + u64::from(minute))
}
