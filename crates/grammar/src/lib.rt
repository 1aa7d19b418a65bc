// What a data set is, stated without a reader, and that reading is its inverse: specs/Grammar.antt and specs/Claims.antt.
#![tactic(auto)]
