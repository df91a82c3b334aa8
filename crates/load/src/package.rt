// Load packages: a 16-bit count, the bytes that they bring, and their sum.
ghost use Rattle.std.specs.Prelude.{◌≡◌, ◌<◌, true, false, eqb, length, MatchResult};
ghost use Rattle.causes.specs.Causes.{call_number};
ghost use Rattle.causes.specs.declared.Cause.TheVariants.{PackageForm};
ghost use Rattle.load.specs.Staging.{payload_bytes, payload, received_sum, computed_sum, count_field, formed, fits, package_number};

use crate::staging::STAGING_BYTES;
use causes::{Cause, check};
use wire::number::BigEndian;
use wire::read::long_sum;

// The bytes of a package that has its count, at least 2, and as many bytes as it says.
#[derive(Clone, Copy)]
pub struct Package<'a> {
    pub bytes: &'a [u8],
    pub ghost well_formed: { formed bytes.now ≡ true },
}

// Whether the package has its count, at least 2, and as many bytes as it says.
fn is_formed(bytes: &[u8]) -> bool
    ensures { result ≡ formed bytes.now }
{
    if bytes.len() < 2 {
        return false;
    }
    let n = usize::from(u16::read(bytes, 0));
    (2 <= n) & (bytes.len() == 2 + n)
}

impl<'a> Package<'a> {
    // The package, or why its form is none.
    pub fn parse(bytes: &'a [u8]) -> Result<Package<'a>, Cause>
        ensures { MatchResult result (λ p. (p.bytes.now ≡ bytes.now) × (formed bytes.now ≡ true))
            (λ c. (c ≡ PackageForm) × (formed bytes.now ≡ false)) }
    {
        check(is_formed(bytes), Cause::PackageForm)?;
        Ok(Package { bytes })
    }

    // Its count of the bytes behind the count.
    fn count(&self) -> usize
        ensures { (result ≡ count_field self.now.bytes.now) × (result < 65536) }
    {
        usize::from(u16::read(self.bytes, 0))
    }

    // The bytes that it brings.
    pub fn payload(&self) -> &'a [u8]
        ensures { (result.now ≡ payload self.now.bytes.now) × (length result.now ≡ payload_bytes self.now.bytes.now) × (length result.now < 65536) }
    {
        &self.bytes[2..self.count()]
    }

    // How many bytes it brings.
    pub fn payload_bytes(&self) -> u32
        ensures { (result ≡ payload_bytes self.now.bytes.now) × (result < 65536) }
    {
        self.payload().len() as u32
    }

    // The sum that came with it.
    pub fn received_sum(&self) -> u16
        ensures { result ≡ received_sum self.now.bytes.now }
    {
        u16::read(self.bytes, self.count())
    }

    // The sum of the bytes that came.
    pub fn computed_sum(&self) -> u16
        ensures { result ≡ computed_sum self.now.bytes.now }
    {
        (long_sum(self.payload()) % 65536) as u16
    }

    // Whether its bytes have the sum that came.
    pub fn sum_right(&self) -> bool
        ensures { result ≡ eqb (received_sum self.now.bytes.now) (computed_sum self.now.bytes.now) }
    {
        self.received_sum() == self.computed_sum()
    }

    // Whether it stays within staging from the next address on.
    pub fn fits(&self, next: u32) -> bool
        ensures { result ≡ fits self.now.bytes.now next }
    {
        next as usize + self.payload().len() <= STAGING_BYTES
    }
}

// Why the package is refused: 8, 9 or 10, the lowest that applies.
#[tactic(auto, unfolding(crate::specs::Staging::package_number))]
pub fn judge(bytes: &[u8], next: u32) -> Result<(), Cause>
    ensures { call_number result ≡ package_number bytes.now next }
{
    let package = Package::parse(bytes)?;
    check(package.fits(next), Cause::PastStaging)?;
    check(package.sum_right(), Cause::PackageSum)
}
