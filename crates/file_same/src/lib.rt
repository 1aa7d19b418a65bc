// What holds of files, among it that each call on one is the bare call on the data set inside: specs/Files.antt. No code.
#![tactic(auto)]
