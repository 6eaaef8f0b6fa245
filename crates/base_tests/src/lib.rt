//! Tests of the containers, of names, and of the pool of a search.
#![tactic(auto)]

#[cfg(test)]
mod environment;
#[cfg(test)]
mod ident_maps;
#[cfg(test)]
mod lists;
#[cfg(test)]
mod maps;
#[cfg(test)]
mod names;
#[cfg(test)]
mod objects;
#[cfg(test)]
mod pools;
#[cfg(test)]
mod renaming;
#[cfg(test)]
mod texts;
#[cfg(test)]
mod workers;
