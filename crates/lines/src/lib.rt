// The priority lines of a bus of any number of lines: specs/ has the definitions and the promises, proofs/ keeps them. There is no code here.
#![tactic(auto)]
