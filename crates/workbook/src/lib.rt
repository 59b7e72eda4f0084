// The meaning of ticket 1 of document 02, "Cells from the workbook": definitions in specs/, laws and proofs in proofs/. No code.
#![tactic(auto)]
