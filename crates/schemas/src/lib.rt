// The six rules as the Alethe document states them, on trees, and cases of them by computation. Definitions and theorems alone.
#![tactic(auto)]
