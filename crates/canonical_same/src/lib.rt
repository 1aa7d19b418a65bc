// The theorem about the canonical form, which says that judging and drawing are the same before and after it: specs/Canonical.antt.
#![tactic(auto)]
