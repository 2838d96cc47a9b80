// The face for C, as a static library: each call of nandoquip exported under its name, with its clauses.
// An archive exports the functions of its own crate alone, and no crate can call those of a static library: so each stands here once more.
#![tactic(auto)]

mod calls;
mod hook;
