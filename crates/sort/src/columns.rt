// The two columns of the matrix: signed quotients, rounded down.
ghost use Rattle.std.specs.Prelude.{◌≡◌, ◌<◌, pos, nat_abs, ◌≤ℤ◌, ◌≤◌, IfSome};
ghost use Rattle.std.proofs.Math.IntN.{sub_ℕ};
ghost use Rattle.sort.specs.Columns.{floor_z, mass_column, energy_column, u_of, bounded};

// The quotient n / d, rounded down, of a divisor above 0. Division alone would round -1 / d to 0.
pub fn floor_div(n: i32, d: i32) -> i32
    requires { pos 1 ≤ℤ d }
    ensures { result ≡ floor_z n (nat_abs d) }
{
    n.div_euclid(d)
}

// a - b as a signed number.
pub fn difference(a: u32, b: u32) -> i32
    requires { (a < 2147483648) × (b < 2147483648) }
    ensures { result ≡ sub_ℕ a b }
{
    a as i32 - b as i32
}

// The mass column, of the energy word and its offset, the time-of-flight word and its offset.
#[tactic(auto, using(crate::proofs::ColumnLaws::columns))]
pub fn mass_column(e: u32, k: u32, t: u32, ktof: u32) -> i32
    requires { (e < 16777216) × (k < 16777216) × (t < 16777216) × (ktof < 16777216) }
    ensures { result ≡ mass_column (u_of e k t ktof) }
{
    floor_div(difference(e + t + 65536, k + ktof), 3584)
}

// The energy column, of the time-of-flight word and its offset.
#[tactic(auto, using(crate::proofs::ColumnLaws::columns))]
pub fn energy_column(t: u32, ktof: u32) -> i32
    requires { (t < 16777216) × (ktof < 16777216) }
    ensures { result ≡ energy_column t ktof }
{
    floor_div(difference(ktof + 360448, t), 4096)
}

// A column of the matrix, 0 to 127. Any other is outside it.
#[tactic(auto, using(crate::proofs::ColumnLaws::columns))]
pub fn bounded(f: i32) -> Option<usize>
    ensures column { result ≡ bounded f }
    ensures inside { IfSome result (λ n. n ≤ 127) }
{
    match f {
        0..=127 => Some(f as usize),
        _ => None,
    }
}
