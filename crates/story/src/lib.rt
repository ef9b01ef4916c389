// Any sequence of calls from a fresh start: definitions and theorems, no code.
#![tactic(auto)]
