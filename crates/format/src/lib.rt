// No code: the layouts, the refusals, the engine's answer and the promises in `specs/`, and their proofs in `proofs/`.
#![tactic(auto)]
