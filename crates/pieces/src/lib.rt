// Definitions and laws only: parts of a list of words, and pieces laid over one. They are in specs/ and proofs/.
#![tactic(auto)]
