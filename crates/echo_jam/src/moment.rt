//! Moments of messages in seconds, as JAM writes them.

ghost use Rattle.std.specs.Prelude.{◌≡◌, ◌≤◌, ◌+◌, true};
ghost use Rattle.echo_jam.specs.Moment as moments;
ghost use Rattle.echo_jam.specs.Moment.{days_at, days_before, early_month, is_laid_out, is_pair, late_month, month_of, pair, time_of, year_of, day_of};

/// The seconds of a DateTime (FTS-0001), as if its zone were UTC; 0 where it has another form.
pub fn date_seconds(date: &[u8; 20]) -> u32
    ensures { result ≡ moments.seconds_of date.now }
{
    if is_laid_out(date) {
        day_of(date) * 86_400 + time_of(date)
    } else {
        0
    }
}

fn is_laid_out(date: &[u8; 20]) -> bool
    ensures { result ≡ is_laid_out date.now }
{
    let of_day = is_pair(date, 0) && is_pair(date, 7) && month_of(&date[3..6]) != 0;
    let of_time = is_pair(date, 11) && is_pair(date, 14) && is_pair(date, 17);
    of_day && of_time
}

fn is_pair(date: &[u8; 20], i: usize) -> bool
    requires { i ≤ 18 }
    ensures { result ≡ is_pair date.now i }
{
    date[i].is_ascii_digit() && date[i + 1].is_ascii_digit()
}

fn pair(date: &[u8; 20], i: usize) -> u32
    requires place { i ≤ 18 }
    requires digits { is_pair date.now i ≡ true }
    ensures value { result ≡ pair date.now i }
    ensures small { result ≤ 99 }
{
    u32::from(date[i] - b'0') * 10 + u32::from(date[i + 1] - b'0')
}

fn time_of(date: &[u8; 20]) -> u32
    requires { is_laid_out date.now ≡ true }
    ensures value { result ≡ time_of date.now }
    ensures small { result ≤ 362439 }
{
    pair(date, 11) * 3600 + (pair(date, 14) * 60 + pair(date, 17))
}

fn day_of(date: &[u8; 20]) -> u32
    requires { is_laid_out date.now ≡ true }
    ensures value { result ≡ day_of date.now }
    ensures small { result ≤ 40600 }
{
    days_at(year_of(pair(date, 7)), month_of(&date[3..6])) + pair(date, 0).saturating_sub(1)
}

fn year_of(pair: u32) -> u32
    requires { pair ≤ 99 }
    ensures value { result ≡ year_of pair }
    ensures least { 1980 ≤ result }
    ensures most { result ≤ 2079 }
{
    if pair < 80 { 2000 + pair } else { 1900 + pair }
}

fn days_at(year: u32, month: u32) -> u32
    requires least { 1980 ≤ year }
    requires most { year ≤ 2079 }
    requires month { month ≤ 12 }
    ensures value { result ≡ days_at year month }
    ensures small { result ≤ 40500 }
{
    let leap = if year % 4 == 0 && month > 2 { 1 } else { 0 };
    (year - 1970) * 365 + ((year - 1969) / 4 + (days_before(month) + leap))
}

fn days_before(month: u32) -> u32
    requires { month ≤ 12 }
    ensures value { result ≡ days_before month }
    ensures small { result ≤ 336 }
{
    let less = if month <= 2 { 0 } else { 2 };
    ((month * 367).saturating_sub(362) / 12).saturating_sub(less)
}

fn month_of(name: &[u8]) -> u32
    ensures value { result ≡ month_of name.now }
    ensures small { result ≤ 12 }
{
    let early = early_month(name);
    if early == 0 { late_month(name) } else { early }
}

fn early_month(name: &[u8]) -> u32
    ensures value { result ≡ early_month name.now }
    ensures small { result ≤ 6 }
{
    if name == b"Jan".as_slice() {
        1
    } else if name == b"Feb".as_slice() {
        2
    } else if name == b"Mar".as_slice() {
        3
    } else if name == b"Apr".as_slice() {
        4
    } else if name == b"May".as_slice() {
        5
    } else if name == b"Jun".as_slice() {
        6
    } else {
        0
    }
}

fn late_month(name: &[u8]) -> u32
    ensures value { result ≡ late_month name.now }
    ensures small { result ≤ 12 }
{
    if name == b"Jul".as_slice() {
        7
    } else if name == b"Aug".as_slice() {
        8
    } else if name == b"Sep".as_slice() {
        9
    } else if name == b"Oct".as_slice() {
        10
    } else if name == b"Nov".as_slice() {
        11
    } else if name == b"Dec".as_slice() {
        12
    } else {
        0
    }
}
