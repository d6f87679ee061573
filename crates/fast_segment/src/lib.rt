// Laws of segments: steps of a window in which a station hears one kind of thing. No code; the laws are in specs/.

#![tactic(auto)]
