// Theorems alone: what records of one trace have in common, and when a record stays one of the program. See specs/Claims.antt.
#![tactic(auto)]
