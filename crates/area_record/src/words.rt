// The words of a station's record.

pub const DEFERENCE: usize = 0;

pub const STRETCH: usize = 1;

pub const GAP: usize = 2;

pub const PHASE: usize = 3;

pub const PHASE_NUMBER: usize = 4;

pub const RECEIVER: usize = 5;

pub const RECEIVER_NUMBER: usize = 6;

pub const SPOILED: usize = 7;

pub const RECEPTION: usize = 8;

pub const FRAME: usize = 9;

pub const ATTEMPTS: usize = 10;

pub const DRAW: usize = 11;

pub const DEFERRED: usize = 12;

pub const EMITTED: usize = 13;

// How many they are.
pub const WORDS: usize = 14;
