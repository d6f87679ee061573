// What is heard where symbols meet, and what a step does to the delay lines. Definitions and laws alone (specs).

#![tactic(auto)]
