// Edits on a floor's words: what may be written in `rules`, and a record laid on a floor in `words`.
#![tactic(auto)]

pub mod rules;
pub mod words;
