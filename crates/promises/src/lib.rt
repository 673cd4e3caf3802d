// What the run promises, proved of its rules. There is no code here: see specs/ and proofs/.
#![tactic(auto)]
