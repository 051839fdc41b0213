//! The words of the command line, each on its own: what `run`, `gen`, `classes`, `check` and `heap` take, and what they write or refuse.
#![tactic(auto)]

#[cfg(test)]
mod checking;
#[cfg(test)]
mod classes;
#[cfg(test)]
mod making;
#[cfg(test)]
mod profile;
#[cfg(test)]
mod running;
