// No code: what holds of every step of the block. Steps keep a table sound, picking gives the oldest,
// and what a step grants.
#![tactic(auto)]
