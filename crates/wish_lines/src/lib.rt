// No code: the text of wish lines, how it is read, and the lines of a market in `specs/`; their laws in `proofs/`.
#![tactic(auto)]
