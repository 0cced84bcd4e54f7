// Partial orientations of a network: lists of ways of which some gates are decided and the others usable either way. What completes one to a plan, and
// where a later plan parts from a setting. Definitions are in specs/, the laws about them in proofs/; there is no code here.

#![tactic(auto)]
