// Lists of calls: what a unit holds after any single takes and takes of bundles from a start that answered "stored". It is
// specs/ alone: Calls has the definitions, CallLaws the theorems. Rests on `takes`, and assumes nothing.
