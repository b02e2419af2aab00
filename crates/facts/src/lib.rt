// Laws of numbers and lists that the kit's library lacks. No code, and nothing about packets.
#![tactic(auto)]
