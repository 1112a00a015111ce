// Theorems alone: the arrows, the order and the ring of the definitions. See specs/Orders.antt.
#![tactic(auto)]
