// The guarantee over every list of calls. It is all in specs/: there is no code here.
#![tactic(auto)]
