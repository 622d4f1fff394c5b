// Request 14: the freeze from the log is the restored image's (see specs/).
#![tactic(auto)]
