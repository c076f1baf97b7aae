// The derivation layer: what a record's numbers say, by themselves. It knows of no store and of no record's bytes.
#![tactic(auto)]

pub mod members;
pub mod modular;
pub mod nal;
pub mod poc;
pub mod ranges;
pub mod ref_lists;
pub mod wishes;

// The greatest capacity of a store, and so the most entries of a begin, members of the sets and
// places of a list. Written here, below all that use it; `Store::CAPACITY` is its name above.
pub const CAPACITY: usize = 16;

// A POC or an MSB lies outside i32.
#[derive(Clone, Copy, PartialEq, Eq, Debug)]
pub struct Outside;
