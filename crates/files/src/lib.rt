// No code: what a file, and a filter that is to be written, are refused for, and that reading and writing undo each other.

#![tactic(auto)]
