// Worked runs, tables, ladders and the starred rungs of the paper, each computed from the definitions.
// There is no code here.
#![tactic(auto)]
