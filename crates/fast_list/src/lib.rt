// A plan given by a list of stretches: what is heard by it, that it may grow, and its events station by station. The
// laws are in specs/.

#![tactic(auto)]

// Station `who` emits from step `from` on: `bits` packet bits, the first of them `bit`, then `jam` jam bits.
#[derive(Clone, Copy)]
pub struct Stretch {
    pub who: usize,
    pub from: u32,
    pub bit: u32,
    pub bits: u32,
    pub jam: u32,
}
