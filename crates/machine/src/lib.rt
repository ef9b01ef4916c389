// The machine that the kernel is proved to be: definitions and laws, no code.
#![tactic(auto)]
