// Runs of events: specs/ has what a run is and what is promised of runs, proofs/ the proofs. There is no code here; the step is that of `events`.
#![tactic(auto)]
