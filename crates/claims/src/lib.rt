// What the library promises, in one place: proofs/Claims.antt is the file to open first.
// There is no code here; proofs/Rows.antt has the worked rows, proofs/Determined.antt and the files named
// after it what each public function's contract leaves open: nothing but whether a write succeeds.
#![tactic(auto)]
