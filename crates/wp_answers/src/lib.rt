//! Worked answers of the top call: its definition, computed from words and from the bytes of texts.
//!
//! They stand in proofs/ as equations, and a wrong one is refused. It has no function: what the program writes is proved to be what the
//! definition answers. It is apart since computing takes minutes, and the program needs none of it.
#![tactic(auto)]
