// Which bytes a text names, and what its frames write. See specs/.
#![tactic(auto)]
