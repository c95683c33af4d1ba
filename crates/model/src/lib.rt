// No code: what headers, cubes, differences and regions are, in specs/, and the laws about them, in proofs/.
#![tactic(auto)]
