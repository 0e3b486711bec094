// Definitions and theorems only, for every rate, every type of samples and every way to weigh a
// window: specs/ says what an output, a round, a call and a recording are, proofs/ what holds of
// them. No code stands here, and nothing is promised of any: a crate whose code cites these
// definitions gets the theorems.
#![tactic(auto)]
