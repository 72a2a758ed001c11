// Laws of finite lists, counts and tables, in specs/. There is no code.
#![tactic(auto)]
