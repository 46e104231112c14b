// Proofs only: every entry keeps a state sound, and a sound machine does not jam.

#![tactic(auto)]
