// The claims over the rules of a run: what each program, setup and budget gets. There is no code here: see specs/ and proofs/.
#![tactic(auto)]
