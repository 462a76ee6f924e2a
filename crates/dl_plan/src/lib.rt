//! Reads a plan, the TOML document that says what a run is to do. Callers see it as `plan_of`, a function of the
//! plan's own name and of its bytes.
#![tactic(auto)]

mod chunks;
mod document;
mod entries;
mod epochs;
mod error;
mod inputs;
mod intervals;
mod keys;
mod names;
mod naming;
mod outputs;
mod plan;
mod read;
mod roles;
mod sizes;
mod sphere;
mod top;
mod values;

pub use error::PlanError;
pub use inputs::{Input, Source, inputs_of};
pub use outputs::{Output, Product, outputs_of};
pub use plan::{Epochs, Mode, Plan, Role, Schedule, Sizes, Sphere};
pub use read::read_plan;
