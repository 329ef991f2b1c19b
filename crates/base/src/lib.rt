// No code: definitions on lists, bits and searches in `specs/`, and their laws in `proofs/`.
#![tactic(auto)]
