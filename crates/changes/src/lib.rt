// The properties that change from one list of rules to another, and those that depend on resources: `changed_properties` and
// `resource_dependent_properties` of matcher.rs.
#![tactic(auto)]

pub mod held;
