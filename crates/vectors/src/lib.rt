// No code: the table "Proved, as a single table" of document 01, and the theorem that each of its
// rows computes.
#![tactic(auto)]
