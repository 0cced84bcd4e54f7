// Lists, tests and numbers: what all other crates cite and what says nothing of drainage. It has no functions.
// The searches and the words by which document 01's definitions are computed are in specs/, the laws of lists in proofs/.

#![tactic(auto)]
