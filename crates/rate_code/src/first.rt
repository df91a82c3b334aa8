// The first edition of the rate code, which the archive has.
ghost use Rattle.rate_code.specs.Rate.{rate_code, least_count, code_valid};

use crate::code::RateCode;

pub struct First;

impl RateCode for First {
    ghost code = { rate_code };

    ghost least = { least_count };

    ghost valid = { code_valid };

    // A count from 4,096 on has at least 13 bits: the shift leaves its upper twelve.
    fn encode(n: u32) -> u16 {
        if n < 4096 {
            return n as u16;
        }
        let s = 20 - n.leading_zeros();
        (4096 * s + (n >> s)) as u16
    }

    #[tactic(auto, unfolding(crate::specs::Rate::code_valid))]
    fn valid(c: u16) -> bool {
        let s = c / 4096;
        (s <= 12) & ((s == 0) | (2048 <= c % 4096))
    }

    fn least_count(c: u16) -> u32 {
        u32::from(c % 4096) << (c / 4096)
    }
}
