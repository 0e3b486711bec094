// Document 01 gives the sine for angles of at most 256 in size. There is no code here: the theorem
// in proofs/ says that no coefficient of the house row, at any two rates in limits, asks for more.
#![tactic(auto)]
