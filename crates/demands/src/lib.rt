// Theorems alone, over bytes: what the release lead signs. They stand in specs/.

#![tactic(auto)]
