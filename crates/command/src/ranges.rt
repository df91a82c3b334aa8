// What the ranges of commands depend on beside the line.
#[derive(Clone, Copy)]
pub struct Ranges {
    // How far the staged bytes reach.
    pub reach: u32,
    // LIMHI's largest value.
    pub limhi: u16,
}
