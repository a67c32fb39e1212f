// The part of the engine's door that is over plans: a plan made or examined, the calls over one, replay. The engine hands these
// modules on, so that a host sees one door; they are a crate of their own so that an edit here proves again only what plans stand
// on.
#![tactic(auto)]

pub mod examined;
pub mod planned;
pub mod plans;
