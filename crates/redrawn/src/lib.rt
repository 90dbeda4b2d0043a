// No code: drawing a file and reading a text undo each other, what 15 says of a text, and the longest drawing.

#![tactic(auto)]
