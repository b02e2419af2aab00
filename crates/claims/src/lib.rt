// What a reader may conclude, as bare statements in specs/, each proved in a line from the laws below. No code.
#![tactic(auto)]
