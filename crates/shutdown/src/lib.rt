// No code: a fault stays a fault. No large file that is accepted or written leads from colour 63 to another colour.

#![tactic(auto)]
