// When a text is refused, and by which number, in the format's own words. See specs/.
#![tactic(auto)]
