//! Words of the command line that are parsed.
ghost use Rattle.std.specs.{Prelude.◌≡◌, Prelude.◌≤◌, Prelude.false, Prelude.true, Prelude.length, Prelude.IfErr, Prelude.IfOk, Prelude.IsSome, Prelude.MatchOption, List.list_all, Str.Parse.digits_value};
ghost use Rattle.echo_addr.specs.{Address.AddressOf, Address.refusal, Digits.is_number};
ghost use Rattle.echo_text.specs.Ids.{is_hex_digit};
ghost use Rattle.cmd_status.specs.declared.fault.Fault.TheVariants.{BadAddress, BadNumber, BadSerial, BadStamp};
ghost use Rattle.cmd_status.specs.Options.{index_of_word, is_serial, is_stamp_word, serial_of_word};
ghost use Rattle.cmd_status.specs.Options as options;

use crate::fault::Fault;
use echo_addr::{Address, number};
use model_steps::Stamp;

/// The address that the word after `--find` writes.
pub fn parse_address<'a>(word: &str) -> Result<Address, Fault<'a>>
    ensures ok { IfOk result (λ a. AddressOf word.now a) }
    ensures refused { IfErr result (λ fault. (fault ≡ BadAddress) × IsSome (refusal word.now)) }
{
    match Address::parse(word.as_bytes()) {
        Ok(address) => Ok(address),
        Err(_) => Err(Fault::BadAddress),
    }
}

/// The stamp that `YYYY-MM-DDThh:mm:ss` writes. Its parts may be out of their ranges.
pub fn parse_stamp<'a>(word: &str) -> Result<Stamp, Fault<'a>>
    ensures ok { IfOk result (λ stamp. (is_stamp_word word.now ≡ true) × (stamp ≡ options.stamp_in word.now)) }
    ensures refused { IfErr result (λ fault. (fault ≡ BadStamp) × (is_stamp_word word.now ≡ false)) }
{
    let bytes = word.as_bytes();
    if !is_stamp(bytes) {
        return Err(Fault::BadStamp);
    }
    Ok(stamp_in(bytes))
}

/// The number that eight hexadecimal digits of either case write.
pub fn parse_serial<'a>(word: &str) -> Result<u32, Fault<'a>>
    ensures ok { IfOk result (λ serial. (is_serial word.now ≡ true) × (serial ≡ serial_of_word word.now)) }
    ensures refused { IfErr result (λ fault. (fault ≡ BadSerial) × (is_serial word.now ≡ false)) }
{
    let bytes = word.as_bytes();
    if bytes.len() != 8 {
        return Err(Fault::BadSerial);
    }
    match serial_in(bytes) {
        Some(serial) => Ok(serial),
        None => Err(Fault::BadSerial),
    }
}

/// The number that decimal digits write, however many; a greater one is the greatest `u64`.
pub fn parse_number<'a>(word: &str) -> Result<u64, Fault<'a>>
    ensures ok { IfOk result (λ n. (is_number word.now ≡ true) × (n ≡ index_of_word word.now)) }
    ensures refused { IfErr result (λ fault. (fault ≡ BadNumber) × (is_number word.now ≡ false)) }
{
    if !is_number(word.as_bytes()) {
        return Err(Fault::BadNumber);
    }
    Ok(word.parse::<u64>().unwrap_or(u64::MAX))
}

fn is_number(digits: &[u8]) -> bool
    ensures { result ≡ is_number digits.now }
{
    number(1, digits).is_some()
}

fn is_stamp(word: &[u8]) -> bool
    ensures { result ≡ is_stamp_word word.now }
{
    word.len() == 19 && has_marks(word) && has_numbers(word)
}

fn has_marks(word: &[u8]) -> bool
    requires { length word.now ≡ 19 }
    ensures { result ≡ options.has_marks word.now }
{
    let of_day = word[4] == b'-' && word[7] == b'-';
    let of_time = word[13] == b':' && word[16] == b':';
    of_day && word[10] == b'T' && of_time
}

fn has_numbers(word: &[u8]) -> bool
    requires { length word.now ≡ 19 }
    ensures { result ≡ options.has_numbers word.now }
{
    let of_day = is_number(&word[0..4]) && is_number(&word[5..7]) && is_number(&word[8..10]);
    let of_time = is_number(&word[11..13]) && is_number(&word[14..16]) && is_number(&word[17..19]);
    of_day && of_time
}

fn stamp_in(word: &[u8]) -> Stamp
    requires { is_stamp_word word.now ≡ true }
    ensures { result ≡ options.stamp_in word.now }
{
    Stamp {
        year: part(&word[0..4]),
        month: part(&word[5..7]),
        day: part(&word[8..10]),
        hour: part(&word[11..13]),
        minute: part(&word[14..16]),
        second: part(&word[17..19]),
    }
}

#[tactic(auto, using(crate::proofs::Numerals::short_number))]
fn part(digits: &[u8]) -> u16
    requires number { is_number digits.now ≡ true }
    requires short { length digits.now ≤ 4 }
    ensures { result ≡ digits_value 10 digits.now }
{
    number(10_000, digits).unwrap() as u16
}

fn serial_in(digits: &[u8]) -> Option<u32>
    requires { length digits.now ≤ 8 }
    ensures { MatchOption result (list_all is_hex_digit digits.now ≡ false) (λ n. (list_all is_hex_digit digits.now ≡ true) × (n ≡ serial_of_word digits.now)) }
{
    let mut value = 0;
    'digits: for digit in digits {
        let worth = char::from(*digit).to_digit(16)?;
        value = value * 16 + worth;
    }
    Some(value)
}
