// Where a stretch of lent bytes stands: definitions for contracts, and no code.
#![tactic(auto)]
