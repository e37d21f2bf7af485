//! The address in an origin line (FTS-0004).

ghost use Rattle.std.specs.{Prelude.{◌≡◌, ◌≤◌, ◌==◌, not, length, reverse, take_while}, Result.result_ok};
ghost use Rattle.echo_addr.specs.Address.{outcome};
ghost use Rattle.echo_stored.specs.OriginAddress.{address_word, behind_bracket, is_address_byte, origin_address};

use echo_addr::Address;

/// The address of a system after the last `(` of an origin line (FTS-0004), without its point and
/// domain.
pub fn origin_address(line: &[u8]) -> Option<Address>
    ensures { result ≡ origin_address line.now }
{
    address(address_word(behind_bracket(line)))
}

fn address(word: &[u8]) -> Option<Address>
    ensures { result ≡ result_ok (outcome word.now) }
{
    Address::parse(word).ok()
}

fn behind_bracket(line: &[u8]) -> &[u8]
    ensures { result.now ≡ behind_bracket line.now }
{
    &line[line.len() - back_len(line)..]
}

fn back_len(line: &[u8]) -> usize
    ensures exact { result ≡ length (take_while (λ b. not (b == 40)) (reverse line.now)) }
    ensures within { result ≤ length line.now }
{
    line.iter().rev().take_while(|b| **b != 40).count()
}

fn address_word(bytes: &[u8]) -> &[u8]
    ensures { result.now ≡ address_word bytes.now }
{
    &bytes[..word_len(bytes)]
}

fn word_len(bytes: &[u8]) -> usize
    ensures exact { result ≡ length (take_while is_address_byte bytes.now) }
    ensures within { result ≤ length bytes.now }
{
    bytes.iter().take_while(|b| is_address_byte(**b)).count()
}

fn is_address_byte(byte: u8) -> bool
    ensures { result ≡ is_address_byte byte }
{
    47 <= byte && byte <= 58
}
