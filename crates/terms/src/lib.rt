// The words that the definitions of every layer are written in. There is no code here: see specs/.
#![tactic(auto)]
