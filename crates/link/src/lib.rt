#![tactic(auto)]

// The delivery claim: the link between the two ports, in definitions and theorems alone. There is no code here.
