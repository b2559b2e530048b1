//! Tests of modules: how paths and imports name them, their scopes and names, their annotations as they are written,
//! what they answer to keys, the messages and the reads of their units, the texts of messages, and reports; in a crate
//! of their own.
#![tactic(auto)]

#[cfg(test)]
mod bindings;
#[cfg(test)]
mod found;
#[cfg(test)]
mod imports;
#[cfg(test)]
mod messages;
#[cfg(test)]
mod module_names;
#[cfg(test)]
mod names;
#[cfg(test)]
mod reads;
#[cfg(test)]
mod redefinitions;
#[cfg(test)]
mod report;
#[cfg(test)]
mod scope;
#[cfg(test)]
mod sources;
#[cfg(test)]
mod type_exprs;
#[cfg(test)]
mod world;
