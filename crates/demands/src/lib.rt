// Theorems alone: the three demands of what the check answers. See specs/Demands.antt.
#![tactic(auto)]
