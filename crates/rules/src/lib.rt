// The rules of document 01, as definitions: see specs/.
#![tactic(auto)]
