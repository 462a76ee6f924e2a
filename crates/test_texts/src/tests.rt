//! What is read and what is written, byte for byte.

mod accounts;
mod assembling;
mod instructions;
mod log_bytes;
mod log_lines;
mod log_reading;
mod log_versions;
mod log_writing;
mod logs;
mod making;
mod plan_keys;
mod plan_limits;
mod plan_names;
mod plan_roles;
mod plans;
mod reports;
mod source_rules;
mod strata_bytes;
mod summaries;
mod tail_bytes;
mod words;
