// What every edition of the rate code has. `CodeLaws` says what holds of both: as ghost laws their proofs, of some 300 lines,
// would stand among the definitions.
ghost use Rattle.std.specs.Prelude.{◌≡◌, ℕ, Bool, true, ◌<◌, eqb};
ghost use Rattle.rate_code.specs.Rate.{count_limit};

pub trait RateCode {
    ghost code: { ℕ → ℕ };

    ghost least: { ℕ → ℕ };

    ghost valid: { ℕ → Bool };

    // The code of a count, below 2^24: a clause, since counts lie in a state, which is judged.
    fn encode(n: u32) -> u16
        requires { n < count_limit }
        ensures code { result ≡ code n }
        ensures valid { valid (code n) ≡ true };

    // Whether the code is one that a count can have.
    fn valid(c: u16) -> bool
        ensures { result ≡ valid c };

    // The least count that has the code.
    fn least_count(c: u16) -> u32
        requires { valid c ≡ true }
        ensures { result ≡ least c };
}

// Whether the count is the least of its code.
pub fn exact<C: RateCode>(n: u32) -> bool
    requires { n < count_limit }
    ensures { result ≡ eqb (C.least (C.code n)) n }
{
    C::least_count(C::encode(n)) == n
}
