// Lent staging: its addresses, and placing the bytes of a package.
ghost use Rattle.std.specs.Prelude.{◌≡◌, true};
ghost use Rattle.load.specs.Staging.{fits, staging_after, addresses_after, fresh_addresses, addresses_within};

use crate::package::Package;
use wire::write::put_bytes;

pub const STAGING_BYTES: usize = 62985;

pub type Staging = [u8; STAGING_BYTES];

// The next address and the reach of staging: numbers, since staging is lent anew to each call.
#[derive(Clone, Copy)]
pub struct Addresses {
    pub next: u32,
    pub reach: u32,
}

impl Addresses {
    // Both addresses 0, as in a fresh processor, after `load 0` and once a load has run. No derived `Default`: its
    // clause is what a caller gets.
    pub fn fresh() -> Addresses
        ensures { result ≡ fresh_addresses }
    {
        Addresses { next: 0, reach: 0 }
    }

    // Whether the addresses are within their limits.
    pub fn within(self) -> bool
        ensures { result ≡ addresses_within self }
    {
        (self.next <= self.reach) & (self.reach <= STAGING_BYTES as u32)
    }

    // The package's bytes go to the next address, which moves past them, and the reach with it.
    #[tactic(auto, using(crate::proofs::StagingLaws::fits_room), unfolding(crate::specs::Staging::staging_after))]
    pub fn place(&mut self, staging: &mut Staging, sent: &Package)
        requires fits { fits sent.now.bytes.now self.old.next ≡ true }
        ensures staging { staging.new ≡ staging_after staging.old self.old.next sent.now.bytes.now }
        ensures addresses { self.new ≡ addresses_after self.old sent.now.bytes.now }
    {
        put_bytes(staging, self.next as usize, sent.payload());
        self.next += sent.payload_bytes();
        self.reach = self.reach.max(self.next);
    }
}
