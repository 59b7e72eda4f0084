// Sums and differences that tell where they pass 64 bits.
#![tactic(auto, using(crate::proofs::Fits::exact_by))]

pub mod exact;
