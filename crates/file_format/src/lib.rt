// The study file as definitions, and that files and contents correspond one to one, in specs/. There is no code.
#![tactic(auto)]
