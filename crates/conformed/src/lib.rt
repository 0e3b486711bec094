// What the small program makes of a file: definitions and theorems only.
//
// specs/Conformed.antt writes the program down for a whole file, specs/Program.antt as it runs, read by
// read; proofs/Theorems.antt shows that the two are the same, however the file is cut into reads.
#![tactic(auto)]
