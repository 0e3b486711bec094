// The numbers that document 01 worked by hand, computed from the definitions that the contracts
// cite. There is no code here: the cases are in specs/, and one proof in proofs/ works A to L. They
// are counts, lengths and refusals; no sample is worked.
#![tactic(auto)]
