// The second edition of the rate code, which is written aboard.
ghost use Rattle.rate_code.specs.Second.{second_code, second_least, second_valid};

use crate::code::RateCode;

pub struct Second;

impl RateCode for Second {
    ghost code = { second_code };

    ghost least = { second_least };

    ghost valid = { second_valid };

    // A count from 4,096 on has 12 + e bits: the shift leaves thirteen, of which the highest is left out.
    fn encode(n: u32) -> u16 {
        if n < 4096 {
            return n as u16;
        }
        let e = 20 - n.leading_zeros();
        (4096 * e + (n >> (e - 1)) - 4096) as u16
    }

    #[tactic(auto, unfolding(crate::specs::Second::second_valid))]
    fn valid(c: u16) -> bool {
        c < 0xD000
    }

    fn least_count(c: u16) -> u32 {
        if c < 4096 {
            return u32::from(c);
        }
        u32::from(c % 4096 + 4096) << (c / 4096 - 1)
    }
}
