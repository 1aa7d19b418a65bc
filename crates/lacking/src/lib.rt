// The steps can lack (document 01, "What a step needs"): a list of data sets in specs/, and one claim over it in proofs/.
#![tactic(auto)]
