// No code: runs computed, so that no claim of fairness is empty, and none could say more; and one in which an inherited ticket is given back.
#![tactic(auto)]
