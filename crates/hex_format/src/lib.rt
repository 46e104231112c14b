// Definitions and their worked cases only: the text of bytes as Intel HEX, and what a text says.
#![tactic(auto)]
