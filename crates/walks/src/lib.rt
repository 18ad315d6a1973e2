// No code: laws for walks by hand over compiled code, which speak of the kit alone.
#![tactic(auto)]
