//! The modules that are loaded (OTP: code(3)).
//!
//! [`Loaded`] holds them by their names, each with its version and its table, where it has one: those of libraries, all at once
//! ([`Loaded::of`]) or one by one ([`Loaded::load`]), or of what else is loaded ([`Loaded::load_from`]). specs/Loaded has two views
//! of it: what is found under a name (`modules_in`), and the list of all by the bytes of their names (`listed_in`). The law
//! `what_is_loaded_is_listed` says that they agree.
//!
//! Trusted: the toolchain alone.
#![tactic(auto)]

pub mod laws;
mod loaded;

pub use loaded::Loaded;
