// No code: a filter in a large and in a pocket file. Turning one into the other and back gives the same bytes, both trace the same, and
// reducing and converting commute.

#![tactic(auto)]
