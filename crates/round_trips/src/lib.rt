// Timetables given back as stop_times.txt and taken from it again: the laws that give import and export their meaning together (proofs/).
// No code.
#![tactic(auto)]
