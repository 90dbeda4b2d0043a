// Definitions alone: what the words of the scope mean. They stand in specs/.

#![tactic(auto)]
