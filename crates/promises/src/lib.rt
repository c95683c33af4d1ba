// No code: what is promised of every call, a theorem a line, in proofs/.
#![tactic(auto)]
