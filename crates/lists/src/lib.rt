// What knows no hypermap and no table: tests, lists, ranges, sums, integers and equivalences of numbers. Definitions in
// specs/, facts in proofs/. No code.

#![tactic(auto)]
