#![tactic(auto)]

// What the program prints, and what a printed "end complete" means, is in specs/.
