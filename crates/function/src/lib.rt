// Functions of inputs with levels, as rows: gates and witnesses of them, and the parts of a step of the machine. There is no code here.
#![tactic(auto)]
