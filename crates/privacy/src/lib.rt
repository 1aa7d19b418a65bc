// What the values of four patient items cannot reach: specs/Privacy.antt. There is no code.
#![tactic(auto)]
