//! Telling cases of what bodies mean, of what typing asks of them, of test places and of a hart's
//! steps, computed by the definitions. The files stand in `proofs/`; there is no code.
#![tactic(auto)]
