// Each call printed and read back, each refusal of a line once, and whole scripts over memory.
#![tactic(auto)]

#[cfg(test)]
mod edges;
#[cfg(test)]
mod whole;
