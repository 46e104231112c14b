// What an accepted image tells of the command that is met at a position of a routine. Proofs only, for the machine and for the serial run.

#![tactic(auto)]
