// No code: what a stranger may rely on, in one place. The definitions are the model's, and the contracts of the calls are about them.
#![tactic(auto)]
