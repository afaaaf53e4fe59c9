//! Feature models read from JSON, and configurations read from settings.
#![tactic(auto)]

mod constraints;
pub mod faults;
mod features;
pub mod laws;
pub mod models;
mod names;
pub mod settings;
mod shapes;
mod slots;
mod values;

pub use cpp_conditions::is_valid;
pub use faults::{ConfigFault, ConfigRefusal, ModelFault, ModelRefusal};
pub use models::read_model;
pub use settings::read_config;
