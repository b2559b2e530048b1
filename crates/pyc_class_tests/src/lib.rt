//! Tests of classes and files: what class statements bind, what classes have under names, and their orders; when files
//! have one interface, when answers are one, keys and answers by number; in a crate of their own.
#![tactic(auto)]

#[cfg(test)]
mod answers;
#[cfg(test)]
mod attributes;
#[cfg(test)]
mod class_body;
#[cfg(test)]
mod declared_classes;
#[cfg(test)]
mod interfaces;
#[cfg(test)]
mod keys;
#[cfg(test)]
mod known_answers;
#[cfg(test)]
mod members;
#[cfg(test)]
mod methods;
#[cfg(test)]
mod orders;
#[cfg(test)]
mod sources;
#[cfg(test)]
mod world;
