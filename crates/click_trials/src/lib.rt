// Tests of clicks: proposing, going back, looking and showing one after the other, as tables.
#![tactic(auto)]

#[cfg(test)]
mod clicks;
