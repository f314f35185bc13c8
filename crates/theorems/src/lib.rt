// No code: what is proved of the rules, for readers and for the crates that go by them.
// The definitions are those of the crates fields and rules, and in specs/ source 004's own, beside which the rules are set.
#![tactic(auto)]
