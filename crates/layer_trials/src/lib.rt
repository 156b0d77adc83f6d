// Tests of the books that stand on others, as tables.
#![tactic(auto)]

#[cfg(test)]
mod answers;
#[cfg(test)]
mod layers;
#[cfg(test)]
mod movement;
