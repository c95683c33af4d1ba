// No code: what the bytes mean and what each call answers, in specs/, and the laws about them, in proofs/.
#![tactic(auto)]
