// The model: what document 01 defines on a set of events, as definitions that compute, and the laws that hold of them. It is
// specs/ alone, in reading order (specs/Lib.antt): first the definitions, in the order of document 01, each beside the sentence
// that it renders, and the drawn examples; then the laws. Rests on `lists`, `octets`, `sha256`, `cords` and `event`, and assumes nothing.
