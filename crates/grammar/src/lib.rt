// Theory, without code: questions as a line of text (document 02, W1). The grammar with rows and formulas in specs/, why reading it is exact in proofs/.
#![tactic(auto)]
