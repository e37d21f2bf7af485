//! The hub over a line of a nodelist.

ghost use Rattle.std.specs.Prelude.{◌≡◌, ◌≤◌, length, take, reverse};
ghost use Rattle.echo_nodelist.specs.Back.{address_back, each_back, hub_at, is_below_hub, nearest_hub};

use crate::line::Line;
use echo_addr::Address;

/// It goes back from the line to the Hub line, or to the line that begins the net.
pub(crate) fn hub_at(lines: &[Line], addresses: &[Option<Address>], i: usize) -> Option<Address>
    requires { addresses.now ≡ each_back address_back (reverse lines.now) }
    ensures { result ≡ hub_at lines.now i }
{
    if i < lines.len() && is_below_hub(&lines[i]) {
        nearest_hub(lines, addresses, i)
    } else {
        None
    }
}

fn is_below_hub(line: &Line) -> bool
    ensures { result ≡ is_below_hub line.now }
{
    match line {
        Line::Note(_) => false,
        Line::Entry { keyword, .. } => !keyword.begins_net() && !keyword.is_hub(),
    }
}

fn nearest_hub(lines: &[Line], addresses: &[Option<Address>], i: usize) -> Option<Address>
    requires within { i ≤ length lines.now }
    requires kept { addresses.now ≡ each_back address_back (reverse lines.now) }
    ensures { result ≡ nearest_hub (reverse (take i lines.now)) }
{
    let mut n = i;
    'earlier: while n > 0 {
        n -= 1;
        if let Line::Entry { keyword, .. } = &lines[n] {
            if keyword.begins_net() {
                return None;
            }
            if keyword.is_hub() {
                return addresses[n];
            }
        }
    }
    None
}
