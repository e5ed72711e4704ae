// Definitions and theorems only: texts that a grammar says, and reading them.

#![tactic(auto)]
