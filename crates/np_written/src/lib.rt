//! JSON values in short, and what is read of their texts: definitions and lemmas for the crates that write JSON, and no code.
#![tactic(auto)]
