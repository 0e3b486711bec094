// What follows from the resampler's contracts, of every sane quality row: each allows one result, an
// accepted call hands back a state that belongs together, a refused one changes nothing, none touches
// what lies past the used part of a lent slice, and a new state takes any first rate in limits where
// the slices are long enough. There is no code here: specs/ says what is claimed, and proofs/ proves it
// of the definitions that the contracts cite. How a call works out its result is not said.
#![tactic(auto)]
