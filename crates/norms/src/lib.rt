// The meaning of norms: rules, reduct, stable step, handing on, rounds and findings. It is all in specs/, with
// its laws, which the calls of the layers above have in their contracts.
#![tactic(auto)]
