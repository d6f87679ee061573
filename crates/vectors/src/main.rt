// Calls of the model, a line each on standard input, and what they answer: published check sequences, worked frames,
// sheets, faulty work areas, document 01's whole case with readings and counters, and a run that a late collision ends.
// The gate compares it with the file `stdout`.
//
// A line is a letter, the call (`asks`), hexadecimal digits, what it is handed, and, behind a space, a name that is
// printed with the answer. Answers are those of the C interface (`wisavulome.h`). A line that begins with # is printed
// as it is.
//
// CRC-32 values: the check value of the CRC catalogue ("123456789"); AUTOSAR, Specification of CRC Routines, 32-bit
// Ethernet CRC (the seven in hexadecimal); the strings of RFC 1321's test suite with the CRC-32 values in common use;
// Wikipedia, "Cyclic redundancy check" (the quick brown fox). The frame with the check sequence 9b f6 d0 fd is
// fpga4fun's Ethernet example.

#![tactic(auto)]

mod asks;
mod script;
mod show;

use std::io;

fn main(rt: HostRuntime) -> io::Result<()> {
    script::run_all(&rt)
}
