// The frame calls: the passes over a frame, which a header level of 0 turns off
// (RFC 6386, section 15, lines 4690 to 4693; change request 3).
#![tactic(auto)]

pub mod frame_call;
