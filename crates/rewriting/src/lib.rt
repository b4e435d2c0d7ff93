// What may change in a patch's text while every byte that it names stays.
#![tactic(auto)]
