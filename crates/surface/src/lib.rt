// Demand 3, one surface: theorems over the layers below, and no code. The statement is `OneSurface` in specs/Surface, its proof `one_surface` in
// proofs/Surface.
#![tactic(auto)]
