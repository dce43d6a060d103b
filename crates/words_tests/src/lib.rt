// The edges of headers and references, and what the two kinds of words count.
#![tactic(auto)]

#[cfg(test)]
mod edges;
