// Theorems over the layers below, and no code. The twelve settled examples of document 01: the table is `Settled` in specs/Examples, its proof
// `settled` in proofs/Examples. No second answer fits the promise of a public call: `NoSecond` in specs/Unique, proved by `no_second` in
// proofs/Unique.
#![tactic(auto)]
