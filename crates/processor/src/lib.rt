// The processor's calls. Each is lent the state, and answers every input: a call that is refused says why, and changes nothing
// but the echo of a line that is one, and what a package with a wrong sum places. Any state may be lent: each call judges its
// limits, which are no invariant of the type. What is lent becomes arrays by `let else`, which names the cause where it is answered:
// by `?` the library's error would have to be made a cause first. Not in `close`, which judges their
// lengths: no array is named on the way to the sample packets.
#![tactic(auto)]

pub mod close;
pub mod event;
pub mod line;
pub mod listing;
pub mod load_package;
pub mod reading;
