// Each call at the edges of its answers, and the words that it touches.
#![tactic(auto)]

#[cfg(test)]
mod answers;
#[cfg(test)]
mod rows;
