// Gregorian dates from 2000 to 2099 (02, 2026-05), and the date three months after one. A date becomes an ordinal, the number of its
// day from the start of 2000 on, so that whoever keeps dates keeps and compares numbers.
#![tactic(auto)]

ghost use Rattle.std.specs.Prelude.{◌≡◌, true, ◌≤◌};
ghost use Rattle.calendar.specs.Dates.{is_leap, month_length, days_of_months, days_before, is_month, is_date, moved_to, three_months_later};
ghost use Rattle.calendar.specs.Ordinals.{days_of_years, ordinal_of, found_of, Placed};

// Any three numbers: month 1 is January.
#[derive(Clone, Copy, Debug, PartialEq, Eq)]
pub struct Date {
    pub year: u32,
    pub month: u32,
    pub day: u32,
}

// The ordinals of a date and of the date three months later.
#[derive(Clone, Copy, Debug, PartialEq, Eq)]
pub struct Window {
    pub start: u32,
    pub end: u32,
}

// A month of a year: 1 is January.
#[derive(Clone, Copy)]
struct Month {
    year: u32,
    month: u32,
    ghost in_year: { (1 ≤ month) × (month ≤ 12) },
}

// The days before each month, and before the end of the year, of a common year and of a leap year.
const DAYS_BEFORE: [[u32; 13]; 2] = [
    [0, 31, 59, 90, 120, 151, 181, 212, 243, 273, 304, 334, 365],
    [0, 31, 60, 91, 121, 152, 182, 213, 244, 274, 305, 335, 366],
];

#[tactic(auto, unfolding(crate::specs::Dates::is_leap))]
fn is_leap(year: u32) -> bool
    ensures { result ≡ is_leap year }
{
    year % 4 == 0 && (year % 100 != 0 || year % 400 == 0)
}

// The days of the first months of a year.
fn days_of_months(year: u32, months: u32) -> u32
    requires { months ≤ 12 }
    ensures value { result ≡ days_of_months (is_leap year) months }
    ensures small { result ≤ 366 }
{
    // std has no `From<u32>` for usize, and `try_from` would have a case that cannot be.
    DAYS_BEFORE[usize::from(is_leap(year))][months as usize]
}

impl Month {
    fn days_before(self) -> u32
        ensures value { result ≡ days_before (is_leap self.year) self.month }
        ensures small { result ≤ 366 }
    {
        days_of_months(self.year, self.month - 1)
    }

    fn length(self) -> u32
        ensures { result ≡ month_length (is_leap self.year) self.month }
    {
        days_of_months(self.year, self.month) - self.days_before()
    }
}

// The days of the years from 2000 on, every fourth of which is a leap year as far as this goes.
fn days_of_years(years: u32) -> u32
    requires { years ≤ 100 }
    ensures value { result ≡ days_of_years years }
    ensures small { result ≤ 36525 }
{
    365 * years + years.div_ceil(4)
}

impl Date {
    fn is_month(self) -> bool
        ensures { result ≡ is_month self }
    {
        (2000..=2099).contains(&self.year) && (1..=12).contains(&self.month)
    }

    // The month that it lies in.
    fn in_month(self) -> Month
        requires { (1 ≤ self.month) × (self.month ≤ 12) }
        ensures { (result.year ≡ self.year) × (result.month ≡ self.month) }
    {
        Month {
            year: self.year,
            month: self.month,
        }
    }

    #[tactic(auto, unfolding(crate::specs::Dates::is_date))]
    fn is_date(self) -> bool
        ensures { result ≡ is_date self }
    {
        self.is_month() && (1..=self.in_month().length()).contains(&self.day)
    }

    // The same day number in another month, or that month's last day.
    #[tactic(auto, unfolding(crate::specs::Dates::moved_to))]
    fn moved_to(self, month: Month) -> Date
        ensures { result ≡ moved_to self month.year month.month }
    {
        Date {
            year: month.year,
            month: month.month,
            day: self.day.min(month.length()),
        }
    }

    #[tactic(auto, unfolding(crate::specs::Dates::three_months_later))]
    fn three_months_later(self) -> Date
        requires { is_date self ≡ true }
        ensures { result ≡ three_months_later self }
    {
        if self.month < 10 {
            self.moved_to(Month {
                year: self.year,
                month: self.month + 3,
            })
        } else {
            self.moved_to(Month {
                year: self.year + 1,
                month: self.month - 9,
            })
        }
    }

    #[tactic(auto, unfolding(crate::specs::Ordinals::ordinal_of))]
    fn ordinal(self) -> u32
        requires { Placed self }
        ensures { result ≡ ordinal_of self }
    {
        days_of_years(self.year - 2000) + (self.in_month().days_before() + self.day)
    }
}

// The date's ordinal and that of the date three months later, where there is such a date.
#[tactic(auto, unfolding(crate::specs::Ordinals::found_of, crate::specs::Ordinals::window_of))]
pub fn window_of(date: Date) -> Option<Window>
    ensures { result ≡ found_of date }
{
    if !date.is_date() {
        return None;
    }
    Some(Window {
        start: date.ordinal(),
        end: date.three_months_later().ordinal(),
    })
}
