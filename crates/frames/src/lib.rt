// The digits, bytes and frames of plan lines: definitions and their laws. The code that reads them is in
// `digits` and `frame_reader`, the code that writes them in `frame_writer`.

#![tactic(auto)]
