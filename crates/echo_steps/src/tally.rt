//! How many messages of a toss had each outcome.

ghost use Rattle.std.specs.Prelude.{◌≡◌, ◌+◌, ◌<◌, ◌^◌};
ghost use Rattle.echo_steps.specs.Tallies.{all_counted, tally_with};

use model_steps::Outcome;

/// The outcomes of the messages of a packet: how many had each.
#[derive(Clone, Copy, Debug, PartialEq, Eq)]
pub struct Tally {
    pub filed: u64,
    pub known: u64,
    pub not_echo: u64,
    pub bad_tag: u64,
    pub no_area: u64,
    pub not_linked: u64,
}

impl Tally {
    /// Of no message.
    pub const NONE: Tally = Tally {
        filed: 0,
        known: 0,
        not_echo: 0,
        bad_tag: 0,
        no_area: 0,
        not_linked: 0,
    };

    /// One more message.
    pub fn count(&mut self, outcome: Outcome)
        requires { all_counted self.old + 1 < 2 ^ 64 }
        ensures { self.new ≡ tally_with self.old outcome }
    {
        match outcome {
            Outcome::NotEcho => self.not_echo += 1,
            Outcome::BadTag => self.bad_tag += 1,
            Outcome::NoArea => self.no_area += 1,
            Outcome::NotLinked => self.not_linked += 1,
            Outcome::Known => self.known += 1,
            Outcome::Filed => self.filed += 1,
        }
    }
}
