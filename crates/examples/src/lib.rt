// Document 01, "Examples on each side": the examples marked P, as one table under one claim. The table stands in
// specs/Table.antt and the claim's proof in proofs/Claim.antt; there is nothing to run here.
#![tactic(auto)]
