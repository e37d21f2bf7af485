//! Decimal digits as a number.

ghost use Rattle.std.specs.Prelude.{◌≡◌, ◌<◌, ◌^◌, ◌↔◌, false, min, IsNone, IfSome};
ghost use Rattle.std.specs.Str.Parse.{digits_value};
ghost use Rattle.echo_addr.specs.Digits.{is_number};

/// The number that decimal digits write, or `cap` for any greater one. `None` for no bytes, or a
/// byte that is no digit. Leading zeros are allowed. Takes no memory.
pub fn number(cap: u32, digits: &[u8]) -> Option<u32>
    requires { cap < 2 ^ 28 }
    ensures none { IsNone result ↔ (is_number digits.now ≡ false) }
    ensures value { IfSome result (λ n. n ≡ min (digits_value 10 digits.now) cap) }
{
    if digits.is_empty() {
        return None;
    }
    let mut value = 0;
    for byte in digits {
        if !byte.is_ascii_digit() {
            return None;
        }
        value = (value * 10 + u32::from(*byte - b'0')).min(cap);
    }
    Some(value)
}
