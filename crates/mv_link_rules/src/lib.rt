//! How the modules of one store have to fit together: the rules of linking and of upgrades, as definitions. `mv_linker` contains
//! the code that tests them, and `mv_soundness` proves what follows from them for runs.
#![tactic(auto)]
