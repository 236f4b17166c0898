//! The configuration of the service: who may show which token, and which folders and domains there are.
//!
//! A configuration is a TOML document with the tables `tokens`, `groups`, `folders` and `domains`.
#![tactic(auto)]

mod catalogue;
mod config;
mod fault;
mod laws;
mod limits;
mod owned;
mod people;
mod reading;
mod rights;
mod setting;
mod settings;
mod tables;

pub use config::Config;
pub use fault::ConfigFault;
pub use laws::{configured_catalogue, limits_of_configurations};
pub use limits::{MAX_BELOW_ROOT, MAX_GROUP_LEN, MAX_NAME_LEN, MAX_TOKEN_LEN};
pub use reading::read_config;
