// The words that the other crates' definitions speak in: specs/ has the definitions, proofs/ their laws. There is no code here.
#![tactic(auto)]
