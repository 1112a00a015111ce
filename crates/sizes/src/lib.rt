// Theorems alone: the longest inputs that can be read, and the longest listing. See specs/Sizes.antt.
#![tactic(auto)]
