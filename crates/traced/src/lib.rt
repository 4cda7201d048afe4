// The tracer's answer, and in specs/ what it stands for: the reach record of the kept glyphs (document 02, Wish 1). No code.
#![tactic(auto)]

// What a trace answers that is not refused: the flag and the length of the record. The flag is document 01's byte, which the calls take beside a record; no
// bool, since the theorems of a record and C's answer say its number.
#[derive(Clone, Copy)]
pub struct Recorded {
    pub flag: u8,
    pub len: usize,
}
