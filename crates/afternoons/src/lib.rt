// The worked examples of R15 are about the store's definitions: specs/Table.antt lists them, proofs/Theorems.antt proves them. Nothing runs.

#![tactic(auto)]
