// Tests over all layers.
#![tactic(auto)]

#[cfg(test)]
mod damaged;
#[cfg(test)]
mod files;
#[cfg(test)]
mod proposals;
#[cfg(test)]
mod telling;
