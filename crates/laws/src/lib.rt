// What has no allocator in it: tests, first numbers, words of 64 bits. Definitions and laws only, no code.
#![tactic(auto)]
