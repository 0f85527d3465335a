//! Tests of the crates below, as tables over one helper: what no clause says and the command line can't show.
#![tactic(auto)]

#[cfg(test)]
mod calls;
#[cfg(test)]
mod chains;
#[cfg(test)]
mod data;
#[cfg(test)]
mod errors;
#[cfg(test)]
mod files;
#[cfg(test)]
mod graph;
#[cfg(test)]
mod kernels;
#[cfg(test)]
mod limits;
#[cfg(test)]
mod lowering;
#[cfg(test)]
mod names;
#[cfg(test)]
mod nests;
#[cfg(test)]
mod nodes;
#[cfg(test)]
mod programs;
#[cfg(test)]
mod purity;
#[cfg(test)]
mod scripts;
#[cfg(test)]
mod shows;
#[cfg(test)]
mod sites;
#[cfg(test)]
mod told;
