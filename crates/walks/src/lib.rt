// No code: what a walk over the lines of a script is, for any turn, and what holds of every walk. It ends, keeps what it does not
// answer, goes on where it stopped, and a script in pieces is the script in one.
#![tactic(auto)]
