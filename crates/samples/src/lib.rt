// The starred cases of document 01's "Sample drawer": a list in specs/, and one claim over it in proofs/.
#![tactic(auto)]
