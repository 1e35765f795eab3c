// Both engines, the stepping and the plain one, agree: definitions and theorems only.
#![tactic(auto)]
