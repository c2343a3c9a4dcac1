// One visitor's name and nobody else's screen (M-110): mathematics only, about what the calls answer and leave. No call is added.
#![tactic(auto)]
