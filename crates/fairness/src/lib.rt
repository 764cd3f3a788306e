// No code: what holds of every run. No overtaking, how often a standing core is passed, and that no
// run is ever stuck.
#![tactic(auto)]
