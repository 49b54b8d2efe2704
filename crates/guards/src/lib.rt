#![tactic(auto)]

// Closed theorems that refuse slips in the definitions which pass every other one: tools/slips makes these slips.
// Knows: crate definitions alone.
// The checker computes the definitions' side.
