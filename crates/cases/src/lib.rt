// Document 01's small cases P1 to P8, as rows that one proof covers (specs/Cases: `rows`). No code.

#![tactic(auto)]
