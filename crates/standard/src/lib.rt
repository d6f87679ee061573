// That document 01's bit time of one station (station_spec) is the procedural model of IEEE 802.3, section 4.2: the
// section's five processes as data (specs/pages), an interpreter, and the theorem (specs/Theorem). No code.

#![tactic(auto)]
