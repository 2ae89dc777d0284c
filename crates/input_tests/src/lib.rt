// What inputs, benches and replays answer at their boundaries.
#![tactic(auto)]

#[cfg(test)]
mod benches;
#[cfg(test)]
mod inputs;
