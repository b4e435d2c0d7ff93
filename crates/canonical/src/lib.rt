// Texts in canonical form: see specs/.
#![tactic(auto)]
