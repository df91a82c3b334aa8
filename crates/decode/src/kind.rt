// The kinds of packet, by application number.
ghost use Rattle.std.specs.Prelude.{◌≡◌};
ghost use Rattle.decode.specs.Read.{kind_of};

use crate::limits::LAST_SAMPLE;
use packet::applications::{BEACON_APPLICATION, RATE_APPLICATION, SAMPLE_APPLICATION, of_sample};

#[derive(Clone, Copy, PartialEq, Eq)]
pub enum Kind {
    Rate,
    Sample,
    Beacon,
}

// The kind with the application number, if it is that of one. No `TryFrom`: an error would say nothing more.
#[tactic(auto, unfolding(crate::specs::Read::kind_of))]
pub fn kind_of(application: u16) -> Option<Kind>
    ensures { result ≡ kind_of application }
{
    match application {
        RATE_APPLICATION => Some(Kind::Rate),
        BEACON_APPLICATION => Some(Kind::Beacon),
        n if (SAMPLE_APPLICATION <= n) & (n <= of_sample(LAST_SAMPLE)) => Some(Kind::Sample),
        _ => None,
    }
}
