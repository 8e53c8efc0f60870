// What is promised of the public functions, through their contracts: proofs/ alone.
#![tactic(auto)]
