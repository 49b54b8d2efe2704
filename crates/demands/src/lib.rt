#![tactic(auto)]

// The voted demands as theorems about the definitions: stated in plain notions under specs/, proved under proofs/.
// Exists for: `Demand1.demand_1`, `Demand2.demand_2`, `Demand3.demand_3`.
// Knows: crates definitions, theory and ending.
// It knows nothing of the code: crate calls puts the two together.
