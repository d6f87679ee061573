// A station's deference and transmitter by themselves: what it emits goes by whether anything is heard, and by nothing
// else. No code; the laws are in specs/.

#![tactic(auto)]
